// The careful run.
ghost use Rattle.std.specs.Prelude.{◌≡◌, ◌^◌, ◌<◌, length, if◌then◌else◌, nat_le, nat_lt, slice_index_or, slice_set};
ghost use Rattle.orders.specs.Lawful.{Within};
ghost use Rattle.elimination.specs.Table.{place};
ghost use Rattle.elimination.specs.Walk.{five, copies, careful_value, careful_step, walk};
ghost use Rattle.runs.specs.SideTables.{cells_of, stored, Kept};
ghost use Rattle.runs.specs.Results.{careful_answer, careful_tables, WalkIsLoop, CarefulIsLoop};

use crate::places::{check_size, place_of};
use crate::rule::Rule;
use crate::tables::Tables;
use crate::update_set::UpdateSet;
use faults::LayoutFault;
use orders::order::Order;
use orders::step::Step;

/// Works the steps of an order so that the table ends as the loop leaves it, whatever the order.
/// It reads the last three arguments of the rule from four side tables, which it overwrites: in
/// cell (i, j) of u0, u1, v0 and v1 stands at the end what the loop has there after its steps with
/// k < j, k ≤ j, k < i and k ≤ i.
/// Refused with number 5 if one of the five tables has not n² cells; all are then as before.
// The tables come one by one, since callers lend memory of their own.
pub fn careful_run<R: Rule, S: UpdateSet, O: Order>(
    rule: &R,
    set: &S,
    order: &O,
    table: &mut [R::Cell],
    u0: &mut [R::Cell],
    u1: &mut [R::Cell],
    v0: &mut [R::Cell],
    v1: &mut [R::Cell],
) -> Result<(), LayoutFault>
    ensures answer { result ≡ careful_answer (O.log order.now) (five table.old u0.old u1.old v0.old v1.old) }
    ensures walk { five table.new u0.new u1.new v0.new v1.new ≡ careful_tables (R.means rule.now) (S.member set.now) (O.log order.now) (O.at order.now) (five table.old u0.old u1.old v0.old v1.old) }
    ensures every_order { WalkIsLoop (R.means rule.now) (S.member set.now) (O.log order.now) (five table.old u0.old u1.old v0.old v1.old) }
    ensures looped { CarefulIsLoop (R.means rule.now) (S.member set.now) (O.log order.now) (five table.old u0.old u1.old v0.old v1.old) (five table.new u0.new u1.new v0.new v1.new) }
{
    let size = order.size();
    check_size(size, table)?;
    check_size(size, u0)?;
    check_size(size, u1)?;
    check_size(size, v0)?;
    check_size(size, v1)?;
    u0.copy_from_slice(table);
    u1.copy_from_slice(table);
    v0.copy_from_slice(table);
    v1.copy_from_slice(table);
    let mut tables = Tables {
        size,
        table,
        u0,
        u1,
        v0,
        v1,
    };
    tables.walk(rule, set, order);
    Ok(())
}

impl<C: Copy> Tables<'_, C> {
    // The walk: one careful step for each step of an order of this size.
    // Not one method with `Table::run`: what a step writes differs. The rule and the set come one by
    // one, as there.
    #[tactic(auto, using(elimination::proofs::Runs::walk_until_none, elimination::proofs::Runs::walk_until_more))]
    fn walk<R: Rule<Cell = C>, S: UpdateSet, O: Order>(&mut self, rule: &R, set: &S, order: &O)
        requires size { self.old.size.exponent ≡ O.log order.now }
        requires copied { cells_of self.old ≡ copies self.old.table.now }
        ensures cells { cells_of self.new ≡ walk (R.means rule.now) (S.member set.now) (2 ^ self.old.size.exponent) (O.at order.now) self.old.table.now }
        ensures kept { Kept self.old self.new }
    {
        for step in order.steps() {
            self.careful_step(rule, set, step);
        }
    }

    // One careful step; one outside the set changes nothing.
    // `Within` is asked of the step at each call: a struct of step and size would be no plainer.
    #[tactic(auto, using(elimination::proofs::Sides::careful_outside))]
    fn careful_step<R: Rule<Cell = C>, S: UpdateSet>(&mut self, rule: &R, set: &S, step: Step)
        requires { Within (2 ^ self.old.size.exponent) step }
        ensures cells { cells_of self.new ≡ careful_step (R.means rule.now) (S.member set.now) (2 ^ self.old.size.exponent) step (cells_of self.old) }
        ensures kept { Kept self.old self.new }
    {
        if set.has(step) {
            let x = self.new_value(rule, step);
            self.store(step, x);
        }
    }

    // What the cell of a step becomes: the last three arguments of the rule come from the side tables.
    fn new_value<R: Rule<Cell = C>>(&self, rule: &R, step: Step) -> C
        requires { Within (2 ^ self.now.size.exponent) step }
        ensures { (d : C) → result ≡ careful_value (R.means rule.now) (2 ^ self.now.size.exponent) step (cells_of self.now) (slice_index_or self.now.table.now (place (2 ^ self.now.size.exponent) step.i step.j) d) }
    {
        let Step { i, j, k } = step;
        let size = self.size;
        let x = self.table[place_of(size, i, j)];
        let u = side_cell(k < j, self.u0, self.u1, place_of(size, i, k));
        let v = side_cell(k < i, self.v0, self.v1, place_of(size, k, j));
        let w = side_cell((k, k) < (i, j), self.u0, self.u1, place_of(size, k, k));
        rule.apply(x, u, v, w)
    }

    // Writes the new value of the cell of a step into the table and, where that keeps it, into the
    // side tables.
    fn store(&mut self, step: Step, x: C)
        requires { Within (2 ^ self.old.size.exponent) step }
        ensures cells { cells_of self.new ≡ stored (2 ^ self.old.size.exponent) step x (cells_of self.old) }
        ensures kept { Kept self.old self.new }
    {
        let Step { i, j, k } = step;
        let at = place_of(self.size, i, j);
        self.table[at] = x;
        keep(self.u0, self.u1, k, j, at, x);
        keep(self.v0, self.v1, k, i, at, x);
    }
}

// Reads a cell of u0 and u1, or of v0 and v1: from the second if the loop has passed that cell with
// the pivot at hand, else from the first. A flag and no enum, since each caller has it as a
// comparison.
fn side_cell<C: Copy>(passed: bool, before: &[C], after: &[C], at: usize) -> C
    requires before { at < length before.now }
    requires after { at < length after.now }
    ensures { (d : C) → slice_index_or (if passed then after.now else before.now) at d ≡ result }
{
    if passed { after[at] } else { before[at] }
}

// Writes the value x that pivot k gives a cell into u0 and u1, or into v0 and v1: into the first if k
// is below the line, into the second if it is at most the line. For u0 and u1 the line is the cell's
// column, for v0 and v1 its row.
fn keep<C: Copy>(before: &mut [C], after: &mut [C], k: usize, line: usize, at: usize, x: C)
    requires before { at < length before.old }
    requires after { at < length after.old }
    ensures before { before.new ≡ (if nat_lt k line then slice_set before.old at x else before.old) }
    ensures after { after.new ≡ (if nat_le k line then slice_set after.old at x else after.old) }
{
    if k < line {
        before[at] = x;
    }
    if k <= line {
        after[at] = x;
    }
}
