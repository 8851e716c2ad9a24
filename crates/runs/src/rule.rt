// What updates a cell.
ghost use Rattle.std.specs.Prelude.{◌≡◌};

/// A rule over cells of its own type: it means a function of four cells, the cell x that is
/// updated and the cells u, v and w of its row, its column and the pivot.
// A trait, no closure: the theorems name what a rule means, and a closure has no such name.
pub trait Rule {
    type Cell: Copy;

    ghost means: { Self → Self.Cell → Self.Cell → Self.Cell → Self.Cell → Self.Cell };

    /// What x becomes.
    fn apply(&self, x: Self::Cell, u: Self::Cell, v: Self::Cell, w: Self::Cell) -> Self::Cell
        ensures { result ≡ means self.now x u v w };
}
