// Leads a board through its life, and a second board that goes another way, and prints what they show.
// The distances come from the board, whose results are proved; this program prints and compares them.
#![tactic(auto)]

mod failure;
mod life;

use failure::Failure;

fn main(rt: HostRuntime) -> Result<(), Failure> {
    life::life(&rt)
}
