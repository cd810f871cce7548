// The lines behind L: the extents, and size and strides of each operand. The strides are laid into one flat array, operand by operand.
ghost use Rattle.std.specs.Prelude.{◌+◌, ◌<◌, ◌^◌, length};
ghost use Rattle.reading.specs.Numbers.{Reads};
ghost use Rattle.reading.specs.Lines.{size_text, TakesExtents, TakesOperand, TakesOperands, TakesLines, arrays};

use super::byte::behind;
use super::number::field;
use super::row::{keep, read_row, read_row_from};

// The E line of `rank` extents.
fn read_extents<'a>(s: &'a [u8], rank: usize, extents: &mut [u64]) -> Option<&'a [u8]>
    ensures { TakesExtents s.now rank extents.old extents.new result }
{
    read_row(behind(s, b'E')?, rank, extents)
}

// The front of an O line: the operand's size.
fn read_size(s: &[u8]) -> Option<(u64, &[u8])>
    ensures { Reads size_text s.now result }
{
    field(behind(s, b'O')?)
}

// An O line of `rank` strides, which are laid from place `from` on. Its size is answered.
// Kept: the place beside the array, here and in `read_row_from`. A text may tell more strides than there are places, so that what is left of the
// array would be cut at the lesser of the two at each line.
fn read_operand<'a>(
    s: &'a [u8],
    rank: usize,
    from: usize,
    strides: &mut [i64],
) -> Option<(u64, &'a [u8])>
    requires { from + length s.now < 2 ^ 64 }
    ensures { TakesOperand s.now rank from strides.old strides.new result }
{
    let (size, row) = read_size(s)?;
    let rest = read_row_from(row, rank, from, strides)?;
    Some((size, rest))
}

// The O lines of all operands.
fn read_operands<'a>(
    s: &'a [u8],
    rank: usize,
    operands: usize,
    sizes: &mut [u64],
    strides: &mut [i64],
) -> Option<&'a [u8]>
    ensures { TakesOperands s.now rank operands 0 0 sizes.old sizes.new strides.old strides.new result }
{
    let mut rest = s;
    let mut from: usize = 0;
    for k in 0..operands {
        let (size, next) = read_operand(rest, rank, from, strides)?;
        keep(sizes, k, size);
        rest = next;
        from += rank;
    }
    Some(rest)
}

// The lines, and nothing behind them.
pub fn read_lines(
    s: &[u8],
    rank: usize,
    operands: usize,
    extents: &mut [u64],
    sizes: &mut [u64],
    strides: &mut [i64],
) -> Option<()>
    ensures { TakesLines s.now rank operands
        (arrays extents.old sizes.old strides.old)
        (arrays extents.new sizes.new strides.new)
        result }
{
    let lines = read_extents(s, rank, extents)?;
    let rest = read_operands(lines, rank, operands, sizes, strides)?;
    if rest.is_empty() { Some(()) } else { None }
}
