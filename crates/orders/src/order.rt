// What an order is, and its steps one after another.
ghost use Rattle.std.specs.Prelude.{◌≡◌, ℕ, ◌+◌, ◌-◌, ◌^◌, ◌≤◌};
ghost use Rattle.std.specs.Iterator.{at_most};
ghost use Rattle.orders.specs.Order.{NextStep, step_answer, step_count};
ghost use Rattle.orders.specs.Lawful.{Lawful};
ghost use Rattle.orders.specs.declared.step.Step.{Step};

use crate::size::Size;
use crate::step::Step;

/// An order of the n³ steps of a table of n = 2^q sites.
/// It means a list: `at` gives the step of each number below n³.
pub trait Order {
    // the exponent q of the number of sites
    ghost log: { Self → ℕ };

    // the step of each number below n³
    ghost at: { Self → ℕ → Step };

    /// The exponent q: the order is one of n = 2^q sites.
    fn exponent(&self) -> u32
        ensures { result ≡ log self.now };

    /// The size of the table: n = 2^q sites. An order's exponent is at most 6, so it is never refused.
    fn size(&self) -> Size
        ensures { result.exponent ≡ log self.now }
    {
        Size::new(self.exponent()).unwrap()
    }

    /// The step of number t, none from n³ up.
    fn step(&self, t: usize) -> Option<Step>
        ensures { result ≡ step_answer (2 ^ log self.now) (at self.now) t };

    /// The n³ steps, in the order's sequence.
    final fn steps(&self) -> Steps<'_, Self>
        ensures order { result.order.now ≡ self.now }
        ensures next { result.next ≡ 0 }
    {
        Steps {
            order: self,
            next: 0,
        }
    }

    // What each order shows.
    ghost small: { (o : Self) → log o ≤ 6 };

    ghost lawful: { (o : Self) → Lawful (2 ^ log o) (at o) };
}

/// The steps of an order, in its sequence, from the one of number `next` on.
#[derive(Drop)]
pub struct Steps<'a, O: Order> {
    order: &'a O,
    next: usize,
    ghost inside: { next ≤ step_count (2 ^ O.log order.now) },
}

impl<'a, O: Order> Iterator for Steps<'a, O> {
    type Item = Step;

    // One relation tells both: the order stays, and the number goes on.
    ghost next_gives = { λ s r t. (t.order.now ≡ s.order.now) × NextStep (2 ^ O.log s.order.now) (O.at s.order.now) s.next r t.next };

    ghost remaining = { λ s. at_most (step_count (2 ^ O.log s.order.now) - s.next) };

    fn next(&mut self) -> Option<Step> {
        let step = self.order.step(self.next)?;
        self.next += 1;
        Some(step)
    }
}
