// Fills a small table in three ways and the distances of a network in two, and prints what it did.
// The tables come from the runs, whose results are proved; this program prints and compares them.
#![tactic(auto)]

mod failure;
mod network;
mod show;
mod summing;

use failure::Failure;

fn main(rt: HostRuntime) -> Result<(), Failure> {
    show::show_summing(&rt)?;
    show::show_network(&rt)
}
