// The run in place.
ghost use Rattle.std.specs.Prelude.{◌≡◌, ◌*◌, ◌^◌, ◌<◌, length, slice_index_or};
ghost use Rattle.orders.specs.Lawful.{Within};
ghost use Rattle.elimination.specs.Table.{place};
ghost use Rattle.elimination.specs.Loop.{value_in_place, step_in_place, run_in_place};
ghost use Rattle.runs.specs.Results.{in_place_answer, in_place_table, loop_answer, loop_table};

use crate::places::{check_size, place_of};
use crate::rule::Rule;
use crate::update_set::UpdateSet;
use faults::LayoutFault;
use orders::loop_order::LoopOrder;
use orders::order::Order;
use orders::size::Size;
use orders::step::Step;

/// Applies the steps of an order to one table, in the order's sequence; a step outside the set
/// changes nothing.
/// Refused with number 5 if the table has not n² cells; it is then as before.
pub fn run_in_place<R: Rule, S: UpdateSet, O: Order>(
    rule: &R,
    set: &S,
    order: &O,
    table: &mut [R::Cell],
) -> Result<(), LayoutFault>
    ensures answer { result ≡ in_place_answer (O.log order.now) table.old }
    ensures table { table.new ≡ in_place_table (R.means rule.now) (S.member set.now) (O.log order.now) (O.at order.now) table.old }
{
    let size = order.size();
    check_size(size, table)?;
    let mut table = Table { size, cells: table };
    table.run(rule, set, order);
    Ok(())
}

/// The loop: for k, then i, then j ascending, the steps of the set on one table of 2^exponent
/// sites. It is the run in place by the loop order.
/// Refused with number 4 for an exponent above 6, then with 5 if the table has not n² cells; it is
/// then as before.
#[tactic(auto, using(crate::proofs::Fitting::loop_by_order))]
pub fn run_loop<R: Rule, S: UpdateSet>(
    rule: &R,
    set: &S,
    exponent: u32,
    table: &mut [R::Cell],
) -> Result<(), LayoutFault>
    ensures answer { result ≡ loop_answer exponent table.old }
    ensures table { table.new ≡ loop_table (R.means rule.now) (S.member set.now) exponent table.old }
{
    let order = LoopOrder::new(exponent)?;
    run_in_place(rule, set, &order, table)
}

// A lent table of n × n cells, row by row.
#[derive(Drop)]
struct Table<'a, C> {
    size: Size,
    cells: &'a mut [C],
    ghost sized: { length cells.now ≡ 2 ^ size.exponent * 2 ^ size.exponent },
}

impl<C: Copy> Table<'_, C> {
    // All steps of an order of this size.
    // The rule and the set come one by one: a struct of both would only be taken apart again.
    #[tactic(auto, using(elimination::proofs::Runs::run_until_none, elimination::proofs::Runs::run_until_more))]
    fn run<R: Rule<Cell = C>, S: UpdateSet, O: Order>(&mut self, rule: &R, set: &S, order: &O)
        requires { self.old.size.exponent ≡ O.log order.now }
        ensures cells { self.new.cells.now ≡ run_in_place (R.means rule.now) (S.member set.now) (2 ^ self.old.size.exponent) (O.at order.now) self.old.cells.now }
        ensures same_loan { self.new.cells.ghost_name ≡ self.old.cells.ghost_name }
    {
        for step in order.steps() {
            self.apply_step(rule, set, step);
        }
    }

    // One step; one outside the set changes nothing.
    // `Within` is asked of the step at each call: a struct of step and size would be no plainer.
    #[tactic(auto, using(elimination::proofs::Pivot::step_outside, elimination::proofs::Pivot::step_as_set))]
    fn apply_step<R: Rule<Cell = C>, S: UpdateSet>(&mut self, rule: &R, set: &S, step: Step)
        requires { Within (2 ^ self.old.size.exponent) step }
        ensures cells { self.new.cells.now ≡ step_in_place (R.means rule.now) (S.member set.now) (2 ^ self.old.size.exponent) step self.old.cells.now }
        ensures same_size { self.new.size ≡ self.old.size }
        ensures same_loan { self.new.cells.ghost_name ≡ self.old.cells.ghost_name }
    {
        if set.has(step) {
            let x = self.new_value(rule, step);
            self.cells[place_of(self.size, step.i, step.j)] = x;
        }
    }

    // What the cell of a step becomes.
    fn new_value<R: Rule<Cell = C>>(&self, rule: &R, step: Step) -> C
        requires { Within (2 ^ self.now.size.exponent) step }
        ensures { (d : C) → result ≡ value_in_place (R.means rule.now) (2 ^ self.now.size.exponent) step self.now.cells.now (slice_index_or self.now.cells.now (place (2 ^ self.now.size.exponent) step.i step.j) d) }
    {
        let x = self.cell(step.i, step.j);
        let u = self.cell(step.i, step.k);
        let v = self.cell(step.k, step.j);
        let w = self.cell(step.k, step.k);
        rule.apply(x, u, v, w)
    }

    // Cell (i, j), whatever default it is read with.
    fn cell(&self, i: usize, j: usize) -> C
        requires row { i < 2 ^ self.now.size.exponent }
        requires column { j < 2 ^ self.now.size.exponent }
        ensures { (d : C) → slice_index_or self.now.cells.now (place (2 ^ self.now.size.exponent) i j) d ≡ result }
    {
        self.cells[place_of(self.size, i, j)]
    }
}
