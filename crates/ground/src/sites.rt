// The size of a board, and whether it fits a ground.
ghost use Rattle.std.specs.Prelude.{◌≡◌, ◌*◌, ◌^◌, ◌<◌, ◌≤◌, IfOk};
ghost use Rattle.std.specs.Result.{result_map_both};
ghost use Rattle.paths.specs.Ground.{sites_on};
ghost use Rattle.paths.specs.Calls.{make_answer};
ghost use Rattle.ground.specs.Cells.{Room};

use faults::LayoutFault;
use orders::size::Size;

// The number of sites of a board on a ground of so many cells, 0 where they do not fit.
#[tactic(auto, using(crate::proofs::NumberOfSites::sites_fitting, crate::proofs::NumberOfSites::sites_refused))]
pub(crate) fn sites_on(exponent: u32, cells: usize) -> usize
    ensures sites { result ≡ sites_on exponent cells }
    ensures room { Room result cells }
    ensures power { 0 < result → result ≡ 2 ^ exponent }
    ensures small { 0 < result → exponent ≤ 6 }
{
    size_on(exponent, cells).map_or(0, Size::sites)
}

/// Whether a board of 2^exponent sites may be laid on a ground of so many cells.
/// Refused with number 4 for an exponent above 6, then with number 5 for a ground under 2·n² cells.
pub fn check_layout(exponent: u32, cells: usize) -> Result<(), LayoutFault>
    ensures { result ≡ make_answer exponent cells }
{
    size_on(exponent, cells)?;
    Ok(())
}

// The size of a board on a ground of so many cells, if it may be laid there.
fn size_on(exponent: u32, cells: usize) -> Result<Size, LayoutFault>
    ensures answer { result_map_both (λ _. tt) (λ e. e) result ≡ make_answer exponent cells }
    ensures same { IfOk result (λ s. s.exponent ≡ exponent) }
    ensures room { IfOk result (λ s. 2 * (2 ^ s.exponent * 2 ^ s.exponent) ≤ cells) }
{
    let size = Size::new(exponent)?;
    if cells < 2 * size.cells() {
        return Err(LayoutFault::SizeMismatch);
    }
    Ok(size)
}
