// The recursive order as a list of codes.
ghost use Rattle.std.specs.Prelude.{◌≡◌, ◌^◌, length};
ghost use Rattle.orders.specs.Order.{step_count};
ghost use Rattle.orders.specs.Codes.{write_answer, codes_after};
ghost use Rattle.orders.specs.Writing.{BlockInside, block_codes};

use crate::size::Size;
use crate::step::Step;
use faults::LayoutFault;

/// Writes the recursive order of n = 2^exponent sites into the first n³ cells, each step as the
/// code (i·64 + j)·64 + k; the cells past them stay.
/// Refused with number 4 for an exponent above 6, then with number 5 for a list under n³ cells; a
/// refusal leaves the list as it was.
#[tactic(auto, using(crate::proofs::BlockCodes::block_codes_all))]
pub fn write_step_codes(exponent: u32, codes: &mut [u32]) -> Result<(), LayoutFault>
    ensures answer { result ≡ write_answer exponent (length codes.old) }
    ensures codes { codes.new ≡ codes_after exponent codes.old result }
{
    let size = Size::new(exponent)?;
    let steps = size.steps();
    if codes.len() < steps {
        return Err(LayoutFault::SizeMismatch);
    }
    write_block(size, Step { i: 0, j: 0, k: 0 }, &mut codes[..steps]);
    Ok(())
}

// Writes the recursive order of a table from a corner on: one code, or the eight parts of the table
// one after another, each by a call of itself.
#[tactic(auto, using(crate::proofs::BlockCodes::block_written))]
fn write_block(size: Size, corner: Step, codes: &mut [u32])
    requires inside { BlockInside size.exponent corner }
    requires room { length codes.old ≡ step_count (2 ^ size.exponent) }
    ensures { codes.new ≡ block_codes size.exponent corner (step_count (2 ^ size.exponent)) }
{
    match size.half() {
        None => codes[0] = corner.code(),
        Some(half) => {
            let steps = half.steps();
            // Not by `chunks_exact_mut`: of what it lent a proof knows the length alone.
            for digit in 0..8 {
                let start = digit * steps;
                let next = Step::of_digit(digit).place(half.sites(), corner);
                write_block(half, next, &mut codes[start..start + steps]);
            }
        }
    }
}
