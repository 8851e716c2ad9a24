// The theory of best distances: what a path and its value are, what each call of a board leaves on
// its ground, which links and relays a history of calls tells, and the law that a distance shown is
// the best over all paths. Stands on kinds, orders, the theory of elimination and the runs.
#![tactic(auto)]
