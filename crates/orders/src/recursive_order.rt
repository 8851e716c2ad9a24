// The recursive order.
ghost use Rattle.std.specs.Prelude.{◌≡◌};
ghost use Rattle.std.specs.Result.{result_map_both};
ghost use Rattle.orders.specs.Size.{exponent_answer};
ghost use Rattle.orders.specs.RecursiveOrder.{recursive_at};
ghost use Rattle.orders.specs.RecursiveLaws.{recursive_lawful};

use crate::order::Order;
use crate::size::Size;
use crate::step::Step;
use faults::LayoutFault;

/// The recursive order: in each table the four quarters forward with the lower half of the
/// pivots, then the four backward with the upper half, and so on inside each quarter.
// Two order types, each a list of its own, so `new`, `exponent` and `step` stand in both: a generic type
// would be no plainer.
#[derive(Clone, Copy, PartialEq, Eq, Debug)]
pub struct RecursiveOrder {
    size: Size,
}

impl RecursiveOrder {
    /// The recursive order of 2^exponent sites.
    /// Refused with number 4 above 6.
    pub fn new(exponent: u32) -> Result<RecursiveOrder, LayoutFault>
        ensures { result_map_both (λ o. o.size.exponent) (λ e. e) result ≡ exponent_answer exponent }
    {
        Ok(RecursiveOrder {
            size: Size::new(exponent)?,
        })
    }
}

impl Order for RecursiveOrder {
    ghost log = { λ o. o.size.exponent };

    ghost at = { λ o. recursive_at o.size.exponent };

    ghost small = { λ o. o.size.small };

    ghost lawful = { λ o. recursive_lawful o.size.exponent };

    fn exponent(&self) -> u32 {
        self.size.exponent()
    }

    fn step(&self, t: usize) -> Option<Step> {
        (t < self.size.steps()).then(|| recursive_step(self.size, t))
    }
}

// Step t by its digits in base 8, of which there are as many as the exponent says: each gives one bit
// more at the low end of each number.
#[tactic(auto, using(crate::specs::RecursiveLaws::recursive_small, crate::specs::RecursiveLaws::digit_more))]
fn recursive_step(size: Size, t: usize) -> Step
    ensures { result ≡ recursive_at size.exponent t }
{
    let mut s = Step { i: 0, j: 0, k: 0 };
    // From the highest digit of t to the lowest.
    for level in (0..size.exponent()).rev() {
        s = s.place(2, Step::of_digit((t >> (3 * level)) % 8));
    }
    s
}
