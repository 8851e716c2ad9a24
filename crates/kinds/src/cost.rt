// Costs: the smaller is the better, and 4294967295 is none.
ghost use Rattle.std.specs.Prelude.{◌≡◌, Some, cond, ◌==◌, codes, decimal};
ghost use Rattle.std.specs.Fmt.{styled_text, styled_decimal};
ghost use Rattle.kinds.specs.Costs.{costs};
ghost use Rattle.kinds.specs.CostsLemmas.{costs_lawful};

use crate::cells::Cost;
use crate::kind::Kind;
use std::fmt;

impl Cost {
    /// The cost of this value.
    #[tactic(auto, using(crate::specs::Equal::cost_equal))]
    pub fn new(value: u32) -> Cost
        ensures value { result.value ≡ value }
        ensures only { (x : Cost) → x.value ≡ value → result ≡ x }
    {
        Cost { value }
    }
}

impl Kind for Cost {
    ghost ops = { costs };

    ghost lawful = { costs_lawful };

    fn join(self, other: Cost) -> Cost {
        self.min(other)
    }

    fn chain(self, other: Cost) -> Cost {
        Cost::new(self.value.saturating_add(other.value))
    }

    fn none() -> Cost {
        Cost::new(u32::MAX)
    }

    fn here() -> Cost {
        Cost::new(0)
    }

    fn equals(self, other: Cost) -> bool {
        self == other
    }
}

// None is shown as `-`, and any other cost as its number, at the width that is asked for.
impl fmt::Display for Cost {
    ghost output = { λ c. Some (cond (c.value == 4294967295) (codes "-") (decimal c.value)) };

    ghost styled_output = { λ c s. Some (cond (c.value == 4294967295) (styled_text s (codes "-")) (styled_decimal s c.value)) };

    fn fmt<W: fmt::Write>(&self, f: &mut fmt::Formatter<W>) -> fmt::Result {
        if *self == Cost::none() {
            f.pad("-")
        } else {
            self.value.fmt(f)
        }
    }
}
