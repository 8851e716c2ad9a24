// Value kinds: what the route tables of a mirror network are filled over.
// A kind (`kind`) has a join, a chain, a none and a here, and `==` tells whether two values are equal;
// its laws hold for all values. Costs, widths, channels and fares are kinds, and so are any two
// kinds side by side; `cells` has their types. `covers` tells whether one value makes another
// needless: an order in every kind, which join and chain respect. `widest` is a choice that looks
// like a kind and is none. The crate stands on `std` alone.
#![tactic(auto)]

pub mod beside;
pub mod cells;
pub mod channels;
pub mod cost;
pub mod covers;
pub mod fare;
pub mod kind;
#[cfg(test)]
mod tests;
pub mod widest;
pub mod width;
