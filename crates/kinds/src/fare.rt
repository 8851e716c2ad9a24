// Fares: the smaller cost is the better, and at one cost the fewer hops.
ghost use Rattle.std.specs.Prelude.{◌≡◌};
ghost use Rattle.kinds.specs.Fares.{fares, fare_sum, fare_total};
ghost use Rattle.kinds.specs.FaresLemmas.{fares_lawful};

use crate::cells::Fare;
use crate::kind::Kind;

impl Fare {
    /// The fare of this cost and these hops.
    #[tactic(auto, using(crate::specs::Equal::fare_equal))]
    pub fn new(cost: u32, hops: u32) -> Fare
        ensures cost { result.cost ≡ cost }
        ensures hops { result.hops ≡ hops }
        ensures only { (x : Fare) → x.cost ≡ cost → x.hops ≡ hops → result ≡ x }
    {
        Fare { cost, hops }
    }

    // Both costs and both hops, each at most 4294967295.
    fn total(self, other: Fare) -> Fare
        ensures { result ≡ fare_total self other }
    {
        Fare::new(
            self.cost.saturating_add(other.cost),
            self.hops.saturating_add(other.hops),
        )
    }

    // The total, or none where the costs come to 4294967295 or more.
    fn sum(self, other: Fare) -> Fare
        ensures { result ≡ fare_sum self other }
    {
        let total = self.total(other);
        if total.cost == u32::MAX {
            Fare::none()
        } else {
            total
        }
    }
}

impl Kind for Fare {
    ghost ops = { fares };

    ghost lawful = { fares_lawful };

    fn join(self, other: Fare) -> Fare {
        self.min(other)
    }

    fn chain(self, other: Fare) -> Fare {
        if self == Fare::here() {
            other
        } else if other == Fare::here() {
            self
        } else {
            self.sum(other)
        }
    }

    fn none() -> Fare {
        Fare::new(u32::MAX, u32::MAX)
    }

    fn here() -> Fare {
        Fare::new(0, 0)
    }

    fn equals(self, other: Fare) -> bool {
        self == other
    }
}
