// The order of the triple loop.
ghost use Rattle.std.specs.Prelude.{◌≡◌, ◌^◌};
ghost use Rattle.std.specs.Result.{result_map_both};
ghost use Rattle.orders.specs.Size.{exponent_answer};
ghost use Rattle.orders.specs.LoopOrder.{loop_at};
ghost use Rattle.orders.specs.LoopLaws.{loop_lawful};

use crate::order::Order;
use crate::size::Size;
use crate::step::Step;
use faults::LayoutFault;

/// The order of the triple loop: k, then i, then j ascending.
// Two order types, each a list of its own, so `new`, `exponent` and `step` stand in both: a generic type
// would be no plainer.
#[derive(Clone, Copy, PartialEq, Eq, Debug)]
pub struct LoopOrder {
    size: Size,
}

impl LoopOrder {
    /// The loop order of 2^exponent sites.
    /// Refused with number 4 above 6.
    pub fn new(exponent: u32) -> Result<LoopOrder, LayoutFault>
        ensures { result_map_both (λ o. o.size.exponent) (λ e. e) result ≡ exponent_answer exponent }
    {
        Ok(LoopOrder {
            size: Size::new(exponent)?,
        })
    }
}

impl Order for LoopOrder {
    ghost log = { λ o. o.size.exponent };

    ghost at = { λ o. loop_at (2 ^ o.size.exponent) };

    ghost small = { λ o. o.size.small };

    ghost lawful = { λ o. loop_lawful (2 ^ o.size.exponent) };

    fn exponent(&self) -> u32 {
        self.size.exponent()
    }

    fn step(&self, t: usize) -> Option<Step> {
        (t < self.size.steps()).then(|| loop_step(self.size, t))
    }
}

// Step t of the loop.
fn loop_step(size: Size, t: usize) -> Step
    ensures { result ≡ loop_at (2 ^ size.exponent) t }
{
    let n = size.sites();
    Step {
        i: t / n % n,
        j: t % n,
        k: t / (n * n),
    }
}
