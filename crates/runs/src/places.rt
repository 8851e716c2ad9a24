// Whether a lent table has a cell for each pair of sites, and where a cell stands.
ghost use Rattle.std.specs.Prelude.{◌≡◌, ◌*◌, ◌^◌, ◌<◌};
ghost use Rattle.elimination.specs.Table.{place};
ghost use Rattle.runs.specs.Sizes.{fits};
ghost use Rattle.runs.specs.Results.{size_answer};

use faults::LayoutFault;
use orders::size::Size;

// Whether a lent list has a cell for each pair of sites; refused with number 5 if not.
// No constructor of a table: one that refuses could not say that the lent list stays as it was.
pub(crate) fn check_size<C>(size: Size, cells: &[C]) -> Result<(), LayoutFault>
    ensures { result ≡ size_answer (fits (2 ^ size.exponent) cells.now) }
{
    if cells.len() == size.cells() {
        Ok(())
    } else {
        Err(LayoutFault::SizeMismatch)
    }
}

// Where cell (i, j) of a table stands.
// Not public: it asks for numbers below that of the sites, and a public call asks for nothing.
pub(crate) fn place_of(size: Size, i: usize, j: usize) -> usize
    requires row { i < 2 ^ size.exponent }
    requires column { j < 2 ^ size.exponent }
    ensures place { result ≡ place (2 ^ size.exponent) i j }
    ensures inside { result < 2 ^ size.exponent * 2 ^ size.exponent }
{
    i * size.sites() + j
}
