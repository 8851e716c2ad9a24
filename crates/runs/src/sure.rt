// The rule that keeps the surer delivery.
ghost use Rattle.runs.specs.Sure.{surer};

use crate::rule::Rule;

/// What is known of a route's deliveries.
#[derive(Clone, Copy, PartialEq, Debug)]
pub struct Delivery {
    /// The fraction delivered.
    pub fraction: f64,
    /// The mean delay.
    pub delay: f64,
}

/// Keeps x if its fraction is at least the product of those of u and v, else gives that product
/// and the sum of their delays.
#[derive(Clone, Copy, PartialEq, Eq, Debug)]
pub struct Sure;

impl Rule for Sure {
    type Cell = Delivery;

    ghost means = { λ _ x u v w. surer x u v };

    fn apply(&self, x: Delivery, u: Delivery, v: Delivery, w: Delivery) -> Delivery {
        let product = u.fraction * v.fraction;
        if x.fraction >= product {
            x
        } else {
            Delivery {
                fraction: product,
                delay: u.delay + v.delay,
            }
        }
    }
}
