// Worked boards. `lent` proves what the lender of a ground learns; the tests run boards through the
// compiled code, with values from the rules. A crate of its own, so that the crate of boards is not
// proved a second time for the tests. Stands on board.
#![tactic(auto)]

pub mod lent;
#[cfg(test)]
mod tests;
