// The tables of the careful run.
// A file of its own: a struct with ghost fields imports what its file's `ghost use` items name. In
// careful.rt that is specs/SideTables, which imports the struct: a circle.
ghost use Rattle.std.specs.Prelude.{◌≡◌, ◌*◌, ◌^◌, length};

use orders::size::Size;

/// A lent table with its four lent side tables.
// No struct inside the struct for u and for v: what it wrote would not be known to the lender.
#[derive(Drop)]
pub(crate) struct Tables<'a, C> {
    pub(crate) size: Size,
    pub(crate) table: &'a mut [C],
    pub(crate) u0: &'a mut [C],
    pub(crate) u1: &'a mut [C],
    pub(crate) v0: &'a mut [C],
    pub(crate) v1: &'a mut [C],
    ghost sized: { length table.now ≡ 2 ^ size.exponent * 2 ^ size.exponent },
    ghost sized_u0: { length u0.now ≡ 2 ^ size.exponent * 2 ^ size.exponent },
    ghost sized_u1: { length u1.now ≡ 2 ^ size.exponent * 2 ^ size.exponent },
    ghost sized_v0: { length v0.now ≡ 2 ^ size.exponent * 2 ^ size.exponent },
    ghost sized_v1: { length v1.now ≡ 2 ^ size.exponent * 2 ^ size.exponent },
}
