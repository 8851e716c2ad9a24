// The cells of the kinds: the values that a route table holds.
// Cost, Width and Channels are types of their own though each holds one number, since they are
// different kinds. A value is fixed by its numbers: clause `only` of each `new`.
ghost use Rattle.std.specs.Prelude.{◌^◌, ◌<◌};

/// What a route costs.
#[derive(Clone, Copy, PartialEq, Eq, PartialOrd, Ord, Debug)]
pub struct Cost {
    pub value: u32,
    ghost fits: { value < 2 ^ 32 },
}

/// How much a route carries at once.
#[derive(Clone, Copy, PartialEq, Eq, PartialOrd, Ord, Debug)]
pub struct Width {
    pub value: u32,
    ghost fits: { value < 2 ^ 32 },
}

/// The channels that are open all along a route, one for each bit of `set`.
#[derive(Clone, Copy, PartialEq, Eq, Debug)]
pub struct Channels {
    pub set: u64,
    ghost fits: { set < 2 ^ 64 },
}

/// What a route costs, and over how many hops it goes. The order is by the cost, then by the hops.
#[derive(Clone, Copy, PartialEq, Eq, PartialOrd, Ord, Debug)]
pub struct Fare {
    pub cost: u32,
    pub hops: u32,
    ghost cost_fits: { cost < 2 ^ 32 },
    ghost hops_fits: { hops < 2 ^ 32 },
}

/// A value of each of two kinds, side by side.
#[derive(Clone, Copy, PartialEq, Eq, Debug)]
pub struct Beside<L, R> {
    pub left: L,
    pub right: R,
}
