// A few answers, worked out by hand.
use crate::cells::*;
use crate::covers::covers;
use crate::kind::Kind;
use crate::widest::{WidestCheapest, distributive_sides};
use std::alloc::AllocError;

// A kind of a caller's own: costs in another type, which has no `==`.
#[derive(Clone, Copy)]
struct Toll {
    cost: Cost,
}

impl Kind for Toll {
    ghost use Rattle.kinds.specs.Costs.{costs};
    ghost use Rattle.kinds.specs.CostsLemmas.{costs_lawful};
    ghost use Rattle.kinds.specs.declared.tests.Toll.{Toll};

    ghost ops = { record {
      join = λ a b. record { cost = costs.join a.cost b.cost };
      chain = λ a b. record { cost = costs.chain a.cost b.cost };
      none = record { cost = costs.none };
      here = record { cost = costs.here };
      same = λ a b. costs.same a.cost b.cost;
    } };

    ghost lawful = { record {
      join_assoc = λ a b c i. record { cost = costs_lawful.join_assoc a.cost b.cost c.cost i };
      join_comm = λ a b i. record { cost = costs_lawful.join_comm a.cost b.cost i };
      chain_assoc = λ a b c i. record { cost = costs_lawful.chain_assoc a.cost b.cost c.cost i };
      chain_join = λ a b c i. record { cost = costs_lawful.chain_join a.cost b.cost c.cost i };
      join_chain = λ a b c i. record { cost = costs_lawful.join_chain a.cost b.cost c.cost i };
      join_none = λ a i. record { cost = costs_lawful.join_none a.cost i };
      none_chain = λ a i. record { cost = costs_lawful.none_chain a.cost i };
      chain_none = λ a i. record { cost = costs_lawful.chain_none a.cost i };
      here_chain = λ a i. record { cost = costs_lawful.here_chain a.cost i };
      chain_here = λ a i. record { cost = costs_lawful.chain_here a.cost i };
      here_join = λ a i. record { cost = costs_lawful.here_join a.cost i };
      same_equal = λ a b e i. record { cost = costs_lawful.same_equal a.cost b.cost e i };
      equal_same = λ a b e. costs_lawful.equal_same a.cost b.cost (λ i. (e i).cost);
    } };

    fn join(self, other: Toll) -> Toll {
        Toll {
            cost: self.cost.join(other.cost),
        }
    }

    fn chain(self, other: Toll) -> Toll {
        Toll {
            cost: self.cost.chain(other.cost),
        }
    }

    fn none() -> Toll {
        Toll { cost: Cost::none() }
    }

    fn here() -> Toll {
        Toll { cost: Cost::here() }
    }

    fn equals(self, other: Toll) -> bool {
        self.cost.equals(other.cost)
    }
}

#[test]
fn a_kind_of_a_callers_own(rt: HostRuntime) {
    let (low, high) = (Toll { cost: Cost::new(2) }, Toll { cost: Cost::new(5) });
    assert!(rt; covers(low, high));
    assert!(rt; !covers(high, low));
    assert!(rt; low.chain(high).equals(Toll { cost: Cost::new(7) }));
}

#[test]
fn costs_add_up_to_none(rt: HostRuntime) {
    let dear = Cost::new(4294967294);
    assert_eq!(rt; dear.chain(Cost::new(1)), Cost::none());
    assert_eq!(rt; dear.chain(Cost::here()).value, 4294967294);
    assert_eq!(rt; dear.join(Cost::new(7)).value, 7);
}

#[test]
fn costs_show_at_a_width(rt: HostRuntime) -> Result<(), AllocError> {
    let alloc = rt.alloc();
    let (cost, none) = (Cost::new(13), Cost::none());
    let costs = format!(in alloc; "[{cost:>8}] [{cost:<4}] [{cost}]")?;
    assert_eq!(rt; costs.as_str(), "[      13] [13  ] [13]");
    let nones = format!(in alloc; "[{none:>8}] [{none:<4}] [{none}]")?;
    assert_eq!(rt; nones.as_str(), "[       -] [-   ] [-]");
    Ok(())
}

#[test]
fn widths_narrow(rt: HostRuntime) {
    let (a, b) = (Width::new(3), Width::new(8));
    assert_eq!(rt; a.join(b).value, 8);
    assert_eq!(rt; a.chain(b).value, 3);
    assert_eq!(rt; b.chain(Width::none()), Width::none());
}

#[test]
fn channels_unite_and_intersect(rt: HostRuntime) {
    let (a, b) = (Channels::new(0b0110), Channels::new(0b0011));
    assert_eq!(rt; a.join(b).set, 0b0111);
    assert_eq!(rt; a.chain(b).set, 0b0010);
    assert!(rt; a.chain(Channels::here()).equals(a));
}

#[test]
fn fares_chain(rt: HostRuntime) {
    let edge = Fare::new(4294967295, 3);
    assert_eq!(rt; edge.chain(Fare::here()), edge);
    assert_eq!(rt; edge.chain(Fare::new(0, 1)), Fare::none());
    assert_eq!(rt;
        Fare::new(2, 5).chain(Fare::new(3, 4294967295)),
        Fare::new(5, 4294967295)
    );
    assert_eq!(rt; Fare::new(4, 9).join(Fare::new(4, 2)), Fare::new(4, 2));
}

#[test]
fn pairs_go_part_by_part(rt: HostRuntime) {
    let a = Beside {
        left: Cost::new(4),
        right: Width::new(9),
    };
    let b = Beside {
        left: Cost::new(1),
        right: Width::new(2),
    };
    assert!(rt;
        a.join(b).equals(Beside {
            left: Cost::new(1),
            right: Width::new(9),
        })
    );
    assert!(rt;
        a.chain(b).equals(Beside {
            left: Cost::new(5),
            right: Width::new(2),
        })
    );
}

#[test]
fn covering(rt: HostRuntime) {
    assert!(rt; covers(Cost::new(2), Cost::new(5)));
    assert!(rt; !covers(Cost::new(5), Cost::new(2)));
    assert!(rt; !covers(Channels::new(0b01), Channels::new(0b10)));
}

#[test]
fn widest_cheapest_is_no_kind(rt: HostRuntime) {
    let (first, second) = distributive_sides();
    assert_eq!(rt; first, WidestCheapest::new(5, 9));
    assert_eq!(rt; second, WidestCheapest::new(5, 1));
}
