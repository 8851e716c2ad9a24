// Boards that are being drawn up.
ghost use Rattle.std.specs.Prelude.{◌≡◌, length};
ghost use Rattle.paths.specs.Calls.{draft, make_answer, make_ground, post_answer, post_ground, withdraw_answer, withdraw_ground, settle_ground, count_links};
ghost use Rattle.paths.specs.History.{made, posted, withdrawn, Leads, Longer, Settles};
ghost use Rattle.paths.specs.Law.{CountsTold};

use crate::settled::Settled;
use faults::{LayoutFault, LinkFault};
use ground::ground::Ground;
use ground::links::count_links;
use ground::sites::check_layout;
use kinds::kind::Kind;
use orders::order::Order;
use runs::relays::Relays;

/// A board that takes posts and withdrawals, on a ground that it holds until it ends.
/// It has n = 2^exponent sites, or none where the exponent is above 6 or the ground has under 2·n²
/// cells.
#[derive(Drop)]
pub struct Draft<'a, V: Kind> {
    // The slice itself, and no `Ground` around it: of what a struct inside a struct holds the lender
    // would not learn what was written. Each call that writes cells makes a `Ground` of it.
    pub(crate) ground: &'a mut [V],
    pub(crate) exponent: u32,
}

impl<'a, V: Kind> Draft<'a, V> {
    /// Whether a board of 2^exponent sites may be laid on the ground.
    /// Refused with number 4 for an exponent above 6, then with number 5 for a ground under 2·n² cells.
    pub fn can_make(ground: &[V], exponent: u32) -> Result<(), LayoutFault>
        ensures { result ≡ make_answer exponent (length ground.now) }
    {
        check_layout(exponent, ground.len())
    }

    /// A board with no link: here from each site to itself, none elsewhere, in its links and in its
    /// routes. The later cells of the ground stay. It refuses nothing: where `can_make` refuses, the
    /// board has no sites and every cell stays.
    pub fn make(ground: &'a mut [V], exponent: u32) -> Draft<'a, V>
        ensures ground { result.ground.now ≡ make_ground V.ops exponent ground.old }
        ensures exponent { result.exponent ≡ exponent }
        ensures lender { result.ground.ghost_name ≡ ground.entry.ghost_name }
        ensures history { Leads V.ops exponent ground.old made result.ground.now }
    {
        Ground::on(ground, exponent).lay_out();
        Draft { ground, exponent }
    }

    /// Joins a value to the link from one site to another.
    /// Refused with number 1 for a site that is not one of the board's, then with number 2 for the same
    /// site twice; a refusal leaves every cell.
    pub fn post(&mut self, from: usize, to: usize, value: V) -> Result<(), LinkFault>
        ensures answer { result ≡ post_answer self.old.exponent from to self.old.ground.now }
        ensures ground { self.new.ground.now ≡ post_ground V.ops self.old.exponent draft from to value self.old.ground.now }
        ensures exponent { self.new.exponent ≡ self.old.exponent }
        ensures lender { self.new.ground.ghost_name ≡ self.old.ground.ghost_name }
        ensures history { Longer V.ops self.old.exponent {s = draft} (λ h. posted h from to value) self.old.ground.now self.new.ground.now }
    {
        Ground::on(self.ground, self.exponent).post_link(from, to, value)
    }

    /// Takes the link from one site to another away: it is none again.
    /// Refused with number 1 for a site that is not one of the board's, then with number 2 for the same
    /// site twice, then with number 3 for no link; a refusal leaves every cell.
    pub fn withdraw(&mut self, from: usize, to: usize) -> Result<(), LinkFault>
        ensures answer { result ≡ withdraw_answer V.ops self.old.exponent from to self.old.ground.now }
        ensures ground { self.new.ground.now ≡ withdraw_ground V.ops self.old.exponent from to self.old.ground.now }
        ensures exponent { self.new.exponent ≡ self.old.exponent }
        ensures lender { self.new.ground.ghost_name ≡ self.old.ground.ghost_name }
        ensures history { Longer V.ops self.old.exponent (λ h. withdrawn h from to) self.old.ground.now self.new.ground.now }
    {
        Ground::on(self.ground, self.exponent).withdraw_link(from, to)
    }

    /// Settles the board with a relay word: its links are copied to its routes, and the steps of the
    /// order whose pivot is a relay are run there. An order of another exponent is replaced by the
    /// loop order. It refuses nothing; a board without sites keeps every cell.
    pub fn settle<O: Order>(self, relays: u64, order: &O) -> Settled<'a, V>
        ensures ground { result.ground.now ≡ settle_ground V.ops self.entry.exponent relays (O.log order.now) (O.at order.now) self.entry.ground.now }
        ensures exponent { result.exponent ≡ self.entry.exponent }
        ensures relays { result.relays.word ≡ relays }
        ensures lender { result.ground.ghost_name ≡ self.entry.ground.ghost_name }
        ensures history { Settles V.ops self.entry.exponent relays (O.log order.now) (O.at order.now) self.entry.ground.now result.ground.now }
    {
        let Draft { ground, exponent } = self;
        // The word is a plain number for callers.
        let relays = Relays { word: relays };
        Ground::on(ground, exponent).settle_routes(relays, order);
        Settled {
            ground,
            exponent,
            relays,
        }
    }

    /// How many links the board has: pairs of different sites whose link is not none. It refuses
    /// nothing.
    #[tactic(auto, using(paths::proofs::CountsTold::counts_told))]
    pub fn count(&self) -> usize
        ensures answer { result ≡ count_links V.ops self.now.exponent self.now.ground.now }
        ensures told { CountsTold V.ops self.now.exponent draft self.now.ground.now result }
    {
        count_links(self.ground, self.exponent)
    }

    /// Ends the board and gives its ground back, with every cell as it stands. It refuses nothing.
    pub fn end(self) -> &'a mut [V]
        ensures ground { result.now ≡ self.entry.ground.now }
        ensures lender { result.ghost_name ≡ self.entry.ground.ghost_name }
    {
        let Draft { ground, .. } = self;
        ground
    }
}
