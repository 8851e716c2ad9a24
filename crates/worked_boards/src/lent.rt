// What the lender of a ground learns of it once the board is let go: the contract of each call on a
// board says that it still stands on that loan.
ghost use Rattle.std.specs.Prelude.{◌≡◌};
ghost use Rattle.paths.specs.Calls.{draft, make_ground, post_ground, withdraw_ground};

use board::draft::Draft;
use kinds::kind::Kind;

/// A board is made on lent cells and let go: they are laid out.
pub fn laid_out<V: Kind>(cells: &mut [V], exponent: u32)
    ensures { cells.new ≡ make_ground V.ops exponent cells.old }
{
    let _ = Draft::make(cells, exponent);
}

/// A board is made on lent cells, takes a link and withdraws another: the lender has the cells that
/// these calls leave.
pub fn drawn_up<V: Kind>(
    cells: &mut [V],
    exponent: u32,
    from: usize,
    to: usize,
    value: V,
    other: usize,
)
    ensures { cells.new ≡ withdraw_ground V.ops exponent to other (post_ground V.ops exponent draft from to value (make_ground V.ops exponent cells.old)) }
{
    let mut draft = Draft::make(cells, exponent);
    let _ = draft.post(from, to, value);
    let _ = draft.withdraw(to, other);
}
