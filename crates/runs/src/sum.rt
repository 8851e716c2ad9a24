// The rule that adds the four cells.
ghost use Rattle.std.specs.Prelude.{◌+◌, ◌%◌, ◌^◌};

use crate::rule::Rule;

/// Adds the four cells, numbers of 32 bits, wrapping.
#[derive(Clone, Copy, PartialEq, Eq, Debug)]
pub struct Sum;

impl Rule for Sum {
    type Cell = u32;

    ghost means = { λ _ x u v w. (x + u + v + w) % 2 ^ 32 };

    fn apply(&self, x: u32, u: u32, v: u32, w: u32) -> u32 {
        x.wrapping_add(u).wrapping_add(v).wrapping_add(w)
    }
}
