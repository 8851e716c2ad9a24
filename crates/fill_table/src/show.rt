// What the program prints.
ghost use Rattle.std.specs.Prelude.{◌<◌};

use crate::failure::Failure;
use crate::summing::FiveTables;
use crate::{network, summing};
use mirrors::Underline;
use std::{fmt, io};

/// One table of two sites, filled in three ways.
pub(crate) fn show_summing(rt: &impl Print) -> Result<(), Failure> {
    show_heading(rt, "One table, filled in three ways")?;
    println!(rt; "A table of two sites holds")?;
    side_by_side(rt, &[summing::START])?;
    println!(rt; "The rule is a sum: for a pivot k, cell (i,j) becomes")?;
    println!(rt; "cell (i,j) + cell (i,k) + cell (k,j) + cell (k,k).")?;
    println!(rt; "")?;
    three_ways(rt)?;
    println!(rt; "")?;
    Ok(())
}

// The three runs with what they leave, and how they compare.
fn three_ways(rt: &impl Print) -> Result<(), Failure> {
    let looped = summing::by_loop()?;
    println!(rt; "1. The loop: for each pivot k, each row i and each column j in turn.")?;
    side_by_side(rt, &[looped])?;
    let in_place = summing::in_place()?;
    println!(rt; "2. In place: the same eight steps on one table, in the recursive order,")?;
    println!(rt; "   which goes through the quarters of the table.")?;
    side_by_side(rt, &[in_place])?;
    let FiveTables {
        table,
        u0,
        u1,
        v0,
        v1,
    } = summing::careful()?;
    println!(rt; "3. Careful: the recursive order again, but each step reads what it needs")?;
    println!(rt; "   from four side tables.")?;
    side_by_side(rt, &[table])?;
    println!(rt; "   Its side tables end as")?;
    println!(rt; "      u0       u1       v0       v1")?;
    side_by_side(rt, &[u0, u1, v0, v1])?;
    compare(rt, "The run in place", &looped, &in_place)?;
    compare(rt, "The careful run", &looped, &table)?;
    Ok(())
}

// The rows of tables of two sites, side by side, each row by itself.
fn side_by_side(rt: &impl Print, tables: &[[u32; 4]]) -> io::Result<()> {
    for row in 0..2 {
        println!(rt; "{}", Row { tables, row })?;
    }
    Ok(())
}

// A row of every table.
#[derive(Clone, Copy)]
struct Row<'a> {
    tables: &'a [[u32; 4]],
    row: usize,
    ghost inside: { row < 2 },
}

impl fmt::Display for Row<'_> {
    fn fmt<W: fmt::Write>(&self, f: &mut fmt::Formatter<W>) -> fmt::Result {
        for table in self.tables {
            write!(
                f,
                "    {:>2} {:>2}",
                table[2 * self.row],
                table[2 * self.row + 1]
            )?;
        }
        Ok(())
    }
}

// Says whether a run left what the loop left.
fn compare(rt: &impl Print, run: &str, looped: &[u32; 4], left: &[u32; 4]) -> io::Result<()> {
    if looped == left {
        println!(rt; "{run} left the loop's table.")
    } else {
        println!(rt; "{run} left another table than the loop.")
    }
}

// A title, and then the line under it.
fn show_heading(rt: &impl Print, title: &str) -> io::Result<()> {
    println!(rt; "{title}")?;
    println!(rt; "{}", Underline(title))
}

/// The distances in a network of four mirrors, by two runs.
pub(crate) fn show_network(rt: &impl Print) -> Result<(), Failure> {
    show_heading(rt, "Distances between four mirrors")?;
    println!(rt;
        "What a link costs, from the mirror of the row to that of the column (- is no link):"
    )?;
    network::links().print(rt)?;
    println!(rt; "What the cheapest way costs, over any mirrors between (- is no way).")?;
    println!(rt; "In place, by the recursive order:")?;
    let in_place = network::distances_in_place()?;
    in_place.print(rt)?;
    println!(rt; "By the careful run and the recursive order:")?;
    let careful = network::distances_careful()?;
    careful.print(rt)?;
    if in_place == careful {
        println!(rt; "The two runs agree in every cell.")?;
    } else {
        println!(rt; "The two runs do not agree.")?;
    }
    Ok(())
}
