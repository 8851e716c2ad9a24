// What the programs on a network of four mirrors share: the mirrors, the table of costs between
// them, and how both are printed. Stands on kinds.
#![tactic(auto)]

ghost use Rattle.std.specs.Prelude.{◌≡◌, Some, slice_get};
ghost use Rattle.std.specs.Fmt.{padded};
ghost use Rattle.mirrors.specs.Names.{name};
ghost use Rattle.mirrors.specs.Headings.{under, underlined};

use kinds::cells::Cost;
use std::{fmt, io};

/// A mirror of a network of four.
#[derive(Clone, Copy, PartialEq, Eq, Debug)]
pub enum Mirror {
    Bergen,
    Geneva,
    Kyoto,
    Lima,
}

impl Mirror {
    /// The mirrors, each at the number of its site.
    pub const ALL: [Mirror; 4] = [Mirror::Bergen, Mirror::Geneva, Mirror::Kyoto, Mirror::Lima];

    /// The number of the mirror's site.
    pub fn site(self) -> usize
        ensures { slice_get Mirror.ALL result ≡ Some self }
    {
        self as usize
    }

    // The mirror's name.
    fn name(self) -> &'static str
        ensures { result.now ≡ name self }
    {
        match self {
            Mirror::Bergen => "Bergen",
            Mirror::Geneva => "Geneva",
            Mirror::Kyoto => "Kyoto",
            Mirror::Lima => "Lima",
        }
    }
}

impl fmt::Display for Mirror {
    ghost output = { λ mirror. Some (name mirror) };

    ghost styled_output = { λ mirror spec. Some (padded spec (name mirror)) };

    fn fmt<W: fmt::Write>(&self, f: &mut fmt::Formatter<W>) -> fmt::Result {
        f.pad(self.name())
    }
}

/// A table of costs between the mirrors, row by row.
#[derive(Clone, Copy, PartialEq, Eq, Debug)]
pub struct CostTable {
    pub cells: [Cost; 16],
}

impl CostTable {
    /// Prints the table, the mirrors' names above and before the rows.
    // Its text is in no contract: what is written is only tested. No `Display`, which would go out as
    // one piece: each name and each cost is written by itself.
    pub fn print(&self, rt: &impl Print) -> io::Result<()> {
        let [a, b, c, d] = Mirror::ALL;
        println!(rt; "    {:<8}{a:>8}{b:>8}{c:>8}{d:>8}", "")?;
        for (from, row) in Mirror::ALL.iter().zip(self.cells.chunks_exact(4)) {
            print!(rt; "    {from:<8}")?;
            for cost in row {
                print!(rt; "{cost:>8}")?;
            }
            println!(rt; "")?;
        }
        Ok(())
    }
}

/// A title with a line under it.
#[derive(Clone, Copy, Debug)]
pub struct Heading<'a>(pub &'a str);

impl fmt::Display for Heading<'_> {
    ghost output = { λ heading. Some (underlined heading.0.now) };

    fn fmt<W: fmt::Write>(&self, f: &mut fmt::Formatter<W>) -> fmt::Result {
        let title = self.0;
        write!(f, "{title}\n{}", Underline(title))
    }
}

/// The line under a title, by itself.
#[derive(Clone, Copy, Debug)]
pub struct Underline<'a>(pub &'a str);

#[tactic(auto, using(crate::proofs::Headings::dashes))]
impl fmt::Display for Underline<'_> {
    ghost output = { λ line. Some (under line.0.now) };

    fn fmt<W: fmt::Write>(&self, f: &mut fmt::Formatter<W>) -> fmt::Result {
        write!(f, "{:-<width$}", "", width = self.0.len())
    }
}
