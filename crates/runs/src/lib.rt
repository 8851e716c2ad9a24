// Runs of the elimination loop over a lent table, generic over the rule that updates a cell, the
// set of steps that are worked, the order of the steps and the cell type.
// The run in place leaves what the order's steps leave one after another; the careful run leaves
// the loop's table by every lawful order. Stands on kinds, orders and the theory of elimination.
#![tactic(auto)]

// What a run is given.
pub mod rule;
pub mod update_set;

// The rules and the sets.
pub mod all_steps;
pub mod path;
pub mod relays;
pub mod sum;
pub mod sure;

// The runs.
pub mod careful;
pub mod in_place;
mod places;
mod tables;
#[cfg(test)]
mod tests;
