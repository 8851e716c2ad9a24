// Boards: links between sites on a ground that somebody lends, and the best distances over them.
// A draft takes posts and withdrawals; settled with a relay word it shows distances, and a post then
// keeps them right at once. Every call says what it answers, every cell that it leaves, and that the
// board it leaves is the one that the history of calls, longer by this call, leads to; the law of
// best distances stands in the contract of `Settled::ask`. A draft and a settled board are two types, so
// that what a state has not does not compile; `post`, `count` and `end` stand in both, of a line
// each. Stands on ground and the theory in paths.
#![tactic(auto)]

pub mod draft;
pub mod settled;
pub mod whole_way;
