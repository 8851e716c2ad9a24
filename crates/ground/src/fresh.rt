// The cells of a new board: here from each site to itself, none elsewhere, as links and as routes.
ghost use Rattle.std.specs.Prelude.{◌≡◌, ◌*◌, ◌<◌, ◌≤◌};
ghost use Rattle.paths.specs.Calls.{make_ground, diagonal};
ghost use Rattle.ground.specs.Cells.{fresh_cell};
ghost use Rattle.ground.specs.Kept.{Kept};

use crate::ground::Ground;
use kinds::kind::Kind;

impl<V: Kind> Ground<'_, V> {
    /// Lays the links and the routes of a new board: here from each site to itself, none elsewhere.
    /// The later cells stay, and all cells stay where there are no sites.
    #[tactic(auto, using(crate::proofs::FreshCells::ground_laid))]
    pub fn lay_out(&mut self)
        ensures cells { self.new.cells.now ≡ make_ground V.ops self.old.exponent self.old.cells.now }
        ensures kept { Kept self.old self.new }
    {
        let n = self.n;
        for (p, cell) in self.cells[..2 * (n * n)].iter_mut().enumerate() {
            *cell = fresh_cell(n, p);
        }
    }
}

// The cell at a place of the two tables. At most 64 sites are asked for, so that no number overflows.
fn fresh_cell<V: Kind>(n: usize, p: usize) -> V
    requires some { 0 < n }
    requires small { n ≤ 64 }
    ensures { result ≡ fresh_cell V.ops n p }
{
    if p < n * n {
        diagonal_cell(n, p)
    } else {
        diagonal_cell(n, p - n * n)
    }
}

// The cell at a place of one table.
fn diagonal_cell<V: Kind>(n: usize, p: usize) -> V
    requires { 0 < n }
    ensures { result ≡ diagonal V.ops n p }
{
    if p / n == p % n { V::here() } else { V::none() }
}
