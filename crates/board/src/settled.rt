// Boards that answer asks.
ghost use Rattle.std.specs.Prelude.{◌≡◌};
ghost use Rattle.paths.specs.Calls.{settled, post_answer, post_ground, ask_answer, count_links};
ghost use Rattle.paths.specs.History.{posted, reopened, Longer};
ghost use Rattle.paths.specs.Law.{ShowsBest, CountsTold};

use crate::draft::Draft;
use faults::LinkFault;
use ground::ground::Ground;
use ground::links::count_links;
use ground::routes::ask_route;
use kinds::kind::Kind;
use runs::relays::Relays;

/// A board that answers asks, with the relay word that it was settled with.
#[derive(Drop)]
pub struct Settled<'a, V: Kind> {
    pub(crate) ground: &'a mut [V],
    pub(crate) exponent: u32,
    pub(crate) relays: Relays,
}

impl<'a, V: Kind> Settled<'a, V> {
    // `post`, `count` and `end` stand in a draft too: two types, so that misuse does not compile.

    /// Joins a value to the link from one site to another, and every route with the way over it: route
    /// a to b with route a to `from`, the value, and route `to` to b, where a is `from` or `from` is a
    /// relay, and b is `to` or `to` is a relay.
    /// Refused with number 1 for a site that is not one of the board's, then with number 2 for the same
    /// site twice; a refusal leaves every cell.
    pub fn post(&mut self, from: usize, to: usize, value: V) -> Result<(), LinkFault>
        ensures answer { result ≡ post_answer self.old.exponent from to self.old.ground.now }
        ensures ground { self.new.ground.now ≡ post_ground V.ops self.old.exponent (settled self.old.relays.word) from to value self.old.ground.now }
        ensures exponent { self.new.exponent ≡ self.old.exponent }
        ensures relays { self.new.relays ≡ self.old.relays }
        ensures lender { self.new.ground.ghost_name ≡ self.old.ground.ghost_name }
        ensures history { Longer V.ops self.old.exponent {s = settled self.old.relays.word} (λ h. posted h from to value) self.old.ground.now self.new.ground.now }
    {
        Ground::on(self.ground, self.exponent).post_and_join(self.relays, from, to, value)
    }

    /// Shows the distance from one site to another, which may be the same: the best over all paths
    /// whose inner sites are relays, whatever calls led to this board.
    /// Refused with number 1 for a site that is not one of the board's.
    pub fn ask(&self, from: usize, to: usize) -> Result<V, LinkFault>
        ensures answer { result ≡ ask_answer V.ops self.now.exponent from to self.now.ground.now }
        ensures best { ShowsBest V.ops self.now.exponent self.now.relays.word self.now.ground.now from to result }
    {
        self.shown(from, to)
    }

    // The route that an ask shows. Apart from `ask`, so that a wrong route is found here, and not where
    // it is proved to be the best.
    fn shown(&self, from: usize, to: usize) -> Result<V, LinkFault>
        ensures { result ≡ ask_answer V.ops self.now.exponent from to self.now.ground.now }
    {
        ask_route(self.ground, self.exponent, from, to)
    }

    /// How many links the board has: pairs of different sites whose link is not none. It refuses
    /// nothing.
    #[tactic(auto, using(paths::proofs::CountsTold::counts_told))]
    pub fn count(&self) -> usize
        ensures answer { result ≡ count_links V.ops self.now.exponent self.now.ground.now }
        ensures told { CountsTold V.ops self.now.exponent (settled self.now.relays.word) self.now.ground.now result }
    {
        count_links(self.ground, self.exponent)
    }

    /// Makes the board a draft again, with every cell as it stands. It refuses nothing.
    pub fn reopen(self) -> Draft<'a, V>
        ensures ground { result.ground.now ≡ self.entry.ground.now }
        ensures exponent { result.exponent ≡ self.entry.exponent }
        ensures lender { result.ground.ghost_name ≡ self.entry.ground.ghost_name }
        ensures history { Longer V.ops self.entry.exponent {s = settled self.entry.relays.word} reopened self.entry.ground.now result.ground.now }
    {
        let Settled {
            ground,
            exponent,
            ..
        } = self;
        Draft { ground, exponent }
    }

    /// Ends the board and gives its ground back, with every cell as it stands. It refuses nothing.
    pub fn end(self) -> &'a mut [V]
        ensures ground { result.now ≡ self.entry.ground.now }
        ensures lender { result.ghost_name ≡ self.entry.ground.ghost_name }
    {
        self.reopen().end()
    }
}
