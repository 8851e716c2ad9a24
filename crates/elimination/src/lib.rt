// The theory of the elimination loop: what the loop, a run in place and the careful walk leave in a
// table, for every cell type, rule, set of steps and order. Stands on the crate of orders.
#![tactic(auto)]
