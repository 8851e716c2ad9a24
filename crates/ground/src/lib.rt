// The cells of a board: calls on a ground, a lent slice of cells with n² links, n² routes and later
// cells, where n is 2^exponent, or 0 where the exponent is above 6 or the ground has under 2·n² cells.
// Each call answers, and leaves every cell, by the definitions of the crate paths, and refuses
// rather than ask anything of its caller. The crate board keeps the state of a board above these.
// Stands on faults, kinds, orders, runs and paths. Read sites, ground, fresh, links, routes, settling.
#![tactic(auto)]

pub mod fresh;
pub mod ground;
pub mod links;
pub mod routes;
pub mod settling;
pub mod sites;
