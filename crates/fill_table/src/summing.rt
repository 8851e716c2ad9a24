// The table 0 0 0 1 of two sites under the summing rule, filled in three ways.
ghost use Rattle.std.specs.Prelude.{◌≡◌, [], ◌∷◌, Ok};

use faults::LayoutFault;
use orders::recursive_order::RecursiveOrder;
use runs::all_steps::AllSteps;
use runs::careful::careful_run;
use runs::in_place::{run_in_place, run_loop};
use runs::sum::Sum;

/// The table of two sites as it is before each run.
pub(crate) const START: [u32; 4] = [0, 0, 0, 1];

/// What the loop leaves.
#[tactic(auto, using(crate::proofs::Computed::loop_leaves))]
pub(crate) fn by_loop() -> Result<[u32; 4], LayoutFault>
    ensures { result ≡ Ok (1 ∷ 2 ∷ 2 ∷ 4 ∷ []) }
{
    let mut table = START;
    run_loop(&Sum, &AllSteps, 1, &mut table)?;
    Ok(table)
}

/// What the run in place by the recursive order leaves.
// Like the distances in network.rt: one function for both would only pass arguments on.
#[tactic(auto, using(crate::proofs::Computed::run_leaves))]
pub(crate) fn in_place() -> Result<[u32; 4], LayoutFault>
    ensures { result ≡ Ok (20 ∷ 8 ∷ 8 ∷ 4 ∷ []) }
{
    let order = RecursiveOrder::new(1)?;
    let mut table = START;
    run_in_place(&Sum, &AllSteps, &order, &mut table)?;
    Ok(table)
}

/// A table with its four side tables.
#[derive(Clone, Copy)]
pub(crate) struct FiveTables {
    pub table: [u32; 4],
    pub u0: [u32; 4],
    pub u1: [u32; 4],
    pub v0: [u32; 4],
    pub v1: [u32; 4],
}

/// What the careful run by the recursive order leaves.
#[tactic(auto, using(crate::proofs::Computed::walk_leaves))]
pub(crate) fn careful() -> Result<FiveTables, LayoutFault>
    ensures { result ≡ Ok (record { table = 1 ∷ 2 ∷ 2 ∷ 4 ∷ []; u0 = 0 ∷ 0 ∷ 0 ∷ 1 ∷ []; u1 = 0 ∷ 2 ∷ 0 ∷ 4 ∷ []; v0 = 0 ∷ 0 ∷ 0 ∷ 1 ∷ []; v1 = 0 ∷ 0 ∷ 2 ∷ 4 ∷ [] }) }
{
    let order = RecursiveOrder::new(1)?;
    let mut table = START;
    let [mut u0, mut u1, mut v0, mut v1] = [[0; 4]; 4];
    careful_run(
        &Sum, &AllSteps, &order, &mut table, &mut u0, &mut u1, &mut v0, &mut v1,
    )?;
    Ok(FiveTables {
        table,
        u0,
        u1,
        v0,
        v1,
    })
}
