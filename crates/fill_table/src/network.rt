// A network of four mirrors: its links, and the distances by two runs.
ghost use Rattle.std.specs.Prelude.{◌≡◌, Ok};
ghost use Rattle.std.specs.Result.{result_map_both};
ghost use Rattle.fill_table.specs.Network.{values, link_costs, distance_costs};

use faults::LayoutFault;
use kinds::cells::Cost;
use kinds::kind::Kind;
use mirrors::CostTable;
use orders::recursive_order::RecursiveOrder;
use runs::all_steps::AllSteps;
use runs::careful::careful_run;
use runs::in_place::run_in_place;
use runs::path::Path;

/// The costs of the links: here on the diagonal, none where there is no link.
pub(crate) fn links() -> CostTable
    ensures { values result.cells ≡ link_costs }
{
    let here = Cost::here();
    let none = Cost::none();
    CostTable {
        cells: [
            // from Bergen
            here,
            Cost::new(4),
            Cost::new(20),
            none,
            // from Geneva
            none,
            here,
            Cost::new(9),
            none,
            // from Kyoto
            none,
            none,
            here,
            Cost::new(7),
            // from Lima
            none,
            Cost::new(6),
            none,
            here,
        ],
    }
}

/// The distances over the links, in place by the recursive order.
// Like `in_place` and `careful` of summing.rt: one function for both would only pass arguments on.
pub(crate) fn distances_in_place() -> Result<CostTable, LayoutFault>
    ensures { result_map_both (λ costs. values costs.cells) (λ e. e) result ≡ Ok distance_costs }
{
    let order = RecursiveOrder::new(2)?;
    let mut costs = links();
    run_in_place(&Path::<Cost>::new(), &AllSteps, &order, &mut costs.cells)?;
    Ok(costs)
}

/// The distances over the links, by the careful run and the recursive order.
pub(crate) fn distances_careful() -> Result<CostTable, LayoutFault>
    ensures { result_map_both (λ costs. values costs.cells) (λ e. e) result ≡ Ok distance_costs }
{
    let order = RecursiveOrder::new(2)?;
    let mut costs = links();
    let none = [Cost::none(); 16];
    let (mut u0, mut u1, mut v0, mut v1) = (none, none, none, none);
    careful_run(
        &Path::<Cost>::new(),
        &AllSteps,
        &order,
        &mut costs.cells,
        &mut u0,
        &mut u1,
        &mut v0,
        &mut v1,
    )?;
    Ok(costs)
}
