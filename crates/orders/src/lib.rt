// The orders in which the steps of the elimination loop may be worked.
// A step names a cell and a pivot; an order lists all n³ steps of a table of n = 2^q sites, each
// once, and shows that its list is lawful. Given are the loop order, the recursive order, and the
// recursive order written out as a list of codes. specs/Nesting has what nested orders rest on.
// Stands on the crate of faults. Read size, step, order, loop_order, recursive_order, codes.
#![tactic(auto)]

pub mod codes;
pub mod loop_order;
pub mod order;
pub mod recursive_order;
pub mod size;
pub mod step;
#[cfg(test)]
mod tests;
