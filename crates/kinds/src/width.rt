// Widths: the larger is the better, and a chain is as wide as its narrower part.
ghost use Rattle.std.specs.Prelude.{◌≡◌};
ghost use Rattle.kinds.specs.Widths.{widths};
ghost use Rattle.kinds.specs.WidthsLemmas.{widths_lawful};

use crate::cells::Width;
use crate::kind::Kind;

impl Width {
    /// The width of this value.
    #[tactic(auto, using(crate::specs::Equal::width_equal))]
    pub fn new(value: u32) -> Width
        ensures value { result.value ≡ value }
        ensures only { (x : Width) → x.value ≡ value → result ≡ x }
    {
        Width { value }
    }
}

impl Kind for Width {
    ghost ops = { widths };

    ghost lawful = { widths_lawful };

    fn join(self, other: Width) -> Width {
        self.max(other)
    }

    fn chain(self, other: Width) -> Width {
        self.min(other)
    }

    fn none() -> Width {
        Width::new(0)
    }

    fn here() -> Width {
        Width::new(u32::MAX)
    }

    fn equals(self, other: Width) -> bool {
        self == other
    }
}
