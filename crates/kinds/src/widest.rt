// A choice that is no kind: the larger width first, then the smaller cost. Chain does not
// distribute over it.
ghost use Rattle.std.specs.Prelude.{◌≡◌};
ghost use Rattle.kinds.specs.Widest.{preferred, chained, wide_route, narrow_route, shared_link, NoKind};

use crate::cells::{Cost, Width};
use crate::kind::Kind;
use std::cmp::Reverse;

/// A width, and a cost that counts only among equal widths.
#[derive(Clone, Copy, PartialEq, Eq, Debug)]
pub struct WidestCheapest {
    pub width: Width,
    pub cost: Cost,
}

impl WidestCheapest {
    /// The value of this width and this cost.
    #[tactic(auto, using(crate::specs::Equal::pair_equal))]
    pub fn new(width: u32, cost: u32) -> WidestCheapest
        ensures width { result.width.value ≡ width }
        ensures cost { result.cost.value ≡ cost }
        ensures only { (x : WidestCheapest) → x.width.value ≡ width → x.cost.value ≡ cost → result ≡ x }
    {
        WidestCheapest {
            width: Width::new(width),
            cost: Cost::new(cost),
        }
    }

    /// The wider of the two, and the cheaper of two as wide.
    pub fn prefer(self, other: WidestCheapest) -> WidestCheapest
        ensures { result ≡ preferred self other }
    {
        if (self.width, Reverse(self.cost)) >= (other.width, Reverse(other.cost)) {
            self
        } else {
            other
        }
    }

    /// One after the other: the smaller width, and both costs.
    pub fn chain(self, other: WidestCheapest) -> WidestCheapest
        ensures { result ≡ chained self other }
    {
        WidestCheapest {
            width: self.width.chain(other.width),
            cost: self.cost.chain(other.cost),
        }
    }
}

/// The two sides of the distributive law at (10, 9), (5, 1) and (5, 0), which differ: the preferred
/// of the first two chained with the third, and the preferred of both when chained with the third.
/// So this choice is no kind.
#[tactic(auto, using(crate::specs::Equal::pair_equal, crate::proofs::NoKind::no_kind))]
pub fn distributive_sides() -> (WidestCheapest, WidestCheapest)
    ensures first { result.0 ≡ chained (preferred wide_route narrow_route) shared_link }
    ensures second { result.1 ≡ preferred (chained wide_route shared_link) (chained narrow_route shared_link) }
    ensures first_width { result.0.width.value ≡ 5 }
    ensures first_cost { result.0.cost.value ≡ 9 }
    ensures second_width { result.1.width.value ≡ 5 }
    ensures second_cost { result.1.cost.value ≡ 1 }
    ensures impossible { NoKind }
{
    // The wide route is preferred to the narrow one, until both go over the shared link.
    let wide = WidestCheapest::new(10, 9);
    let narrow = WidestCheapest::new(5, 1);
    let shared = WidestCheapest::new(5, 0);
    (
        preferred_first(wide, narrow, shared),
        chained_first(wide, narrow, shared),
    )
}

// Functions of any three values, since a wrong side can have the same numbers at those above.

// The left side of the distributive law.
fn preferred_first(a: WidestCheapest, b: WidestCheapest, c: WidestCheapest) -> WidestCheapest
    ensures { result ≡ chained (preferred a b) c }
{
    a.prefer(b).chain(c)
}

// The right side of the distributive law.
fn chained_first(a: WidestCheapest, b: WidestCheapest, c: WidestCheapest) -> WidestCheapest
    ensures { result ≡ preferred (chained a c) (chained b c) }
{
    a.chain(c).prefer(b.chain(c))
}
