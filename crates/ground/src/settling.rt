// The settling of a board: its links copied to its routes, and the steps over relays run there.
ghost use Rattle.std.specs.Prelude.{◌≡◌, ◌+◌, ◌*◌, ◌^◌, ◌<◌, ◌≤◌, ◌++◌, length, take, drop, slice_index_or, slice_set};
ghost use Rattle.elimination.specs.Loop.{run_in_place};
ghost use Rattle.paths.specs.Calls.{path_rule, relay_steps, order_taken, settle_ground};
ghost use Rattle.ground.specs.Kept.{Kept};

use crate::ground::Ground;
use kinds::kind::Kind;
use orders::order::Order;
use runs::in_place::{run_in_place, run_loop};
use runs::path::Path;
use runs::relays::Relays;

impl<V: Kind> Ground<'_, V> {
    /// Copies the links to the routes and runs the steps of the order there whose pivot is a relay,
    /// in place with the path rule; an order of another exponent is replaced by the loop order. A
    /// ground without sites stays.
    #[tactic(auto, using(crate::proofs::RunOnRoutes::settle_on_copy, crate::proofs::RunOnRoutes::settle_nowhere))]
    pub fn settle_routes<O: Order>(&mut self, relays: Relays, order: &O)
        ensures cells { self.new.cells.now ≡ settle_ground V.ops self.old.exponent relays.word (O.log order.now) (O.at order.now) self.old.cells.now }
        ensures kept { Kept self.old self.new }
    {
        let n = self.n;
        if n > 0 {
            self.copy_links();
            run_routes(
                self.exponent,
                relays,
                order,
                &mut self.cells[n * n..2 * (n * n)],
            );
        }
    }

    // Copies the links to the routes.
    // One by one: with `copy_within` a wrong copy would be refused for a missing invariant, and not for
    // its cells.
    #[tactic(auto, using(crate::proofs::CopiedLinks::copied_none, crate::proofs::CopiedLinks::copied_more, crate::proofs::CopiedLinks::copied_all))]
    fn copy_links(&mut self)
        ensures cells { self.new.cells.now ≡ take (self.old.n * self.old.n) self.old.cells.now ++ (take (self.old.n * self.old.n) self.old.cells.now ++ drop (2 * (self.old.n * self.old.n)) self.old.cells.now) }
        ensures kept { Kept self.old self.new }
    {
        let n = self.n;
        for p in 0..n * n {
            self.copy_link(p);
        }
    }

    // Copies the link at a place to the route.
    fn copy_link(&mut self, p: usize)
        requires { p < self.old.n * self.old.n }
        ensures cells { self.new.cells.now ≡ slice_set self.old.cells.now (self.old.n * self.old.n + p) (slice_index_or self.old.cells.now p V.ops.none) }
        ensures kept { Kept self.old self.new }
    {
        self.cells[self.n * self.n + p] = self.cells[p];
    }
}

// Runs the steps over relays on a table of 2^exponent sites, by the order if it is of that exponent
// and else by the loop order. The exponent and the table come apart: a struct of both would be made
// for this one call.
#[tactic(auto, using(crate::proofs::RunOnRoutes::loop_as_order))]
fn run_routes<V: Kind, O: Order>(exponent: u32, relays: Relays, order: &O, table: &mut [V])
    requires small { exponent ≤ 6 }
    requires sized { length table.old ≡ 2 ^ exponent * 2 ^ exponent }
    ensures { table.new ≡ run_in_place (path_rule V.ops) (relay_steps relays.word) (2 ^ exponent) (order_taken exponent (O.log order.now) (O.at order.now)) table.old }
{
    let rule = Path::<V>::new();
    if order.exponent() == exponent {
        run_in_place(&rule, &relays, order, table).unwrap();
    } else {
        run_loop(&rule, &relays, exponent, table).unwrap();
    }
}
