// The steps over relays.
ghost use Rattle.std.specs.Prelude.{◌≡◌};
ghost use Rattle.runs.specs.Sets.{bit_is_one};

use crate::update_set::UpdateSet;
use orders::step::Step;

/// The steps whose pivot is a relay: bit k of the word is 1.
#[derive(Clone, Copy, PartialEq, Eq, Debug)]
pub struct Relays {
    pub word: u64,
}

impl Relays {
    /// Whether a site is a relay: its bit of the word is 1; no site from 64 up is one.
    pub fn includes(self, site: usize) -> bool
        ensures { result ≡ bit_is_one self.word site }
    {
        site < 64 && (self.word >> site) % 2 == 1
    }
}

impl UpdateSet for Relays {
    ghost member = { λ relays step. bit_is_one relays.word step.k };

    fn has(&self, step: Step) -> bool {
        self.includes(step.k)
    }
}
