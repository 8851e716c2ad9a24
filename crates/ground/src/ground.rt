// A ground: the cells that somebody lends to a board, with the number of its sites.
ghost use Rattle.std.specs.Prelude.{◌≡◌, ◌^◌, ◌<◌, ◌≤◌, length};
ghost use Rattle.paths.specs.Ground.{sites_on};
ghost use Rattle.ground.specs.Cells.{Room};

use crate::sites::sites_on;

/// The cells of a board of n = 2^exponent sites: n² links, n² routes and later cells. It has no sites
/// where the exponent is above 6 or there are under 2·n² cells.
#[derive(Drop)]
pub struct Ground<'a, V> {
    pub(crate) cells: &'a mut [V],
    pub(crate) exponent: u32,
    // 0 where there are no sites: each check of a site and each loop over the sites then needs no
    // case of its own.
    pub(crate) n: usize,
    ghost counted: { n ≡ sites_on exponent (length cells.now) },
    ghost room: { Room n (length cells.now) },
    ghost power: { 0 < n → n ≡ 2 ^ exponent },
    ghost small: { 0 < n → exponent ≤ 6 },
}

impl<'a, V> Ground<'a, V> {
    /// A ground on lent cells, which stay as they are. It refuses nothing.
    pub fn on(cells: &'a mut [V], exponent: u32) -> Ground<'a, V>
        ensures cells { result.cells.now ≡ cells.old }
        ensures exponent { result.exponent ≡ exponent }
        ensures lender { result.cells.ghost_name ≡ cells.entry.ghost_name }
    {
        let n = sites_on(exponent, cells.len());
        Ground { cells, exponent, n }
    }

    /// Gives the cells back, as they stand. It refuses nothing.
    pub fn end(self) -> &'a mut [V]
        ensures cells { result.now ≡ self.entry.cells.now }
        ensures lender { result.ghost_name ≡ self.entry.cells.ghost_name }
    {
        let Ground { cells, .. } = self;
        cells
    }
}
