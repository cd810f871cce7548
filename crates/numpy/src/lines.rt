// The lines N, S and T. Shape and byte strides are laid into lent arrays as far as these have places; all of them are read for the form.
ghost use Rattle.numpy.specs.Readers.{ReadsHead, TakesLine, TakesLines, ReadsDescription};

use reading::MAX_TEXT;
use reading::byte::behind;
use reading::head::read_counts;
use reading::number::Number;
use reading::row::read_row;

// What a text says: size and rank, and the numbers of the shape as they stand there, or the byte strides if there are some.
// Kept: two variants and no struct with an Option. Where there are byte strides nothing asks for the shape's digits again, so each kind has one
// text to go by.
#[derive(Clone, Copy)]
pub enum Said<'a> {
    Packed(u64, usize, &'a [u8]),
    Given(u64, usize, &'a [u8]),
}

// "N,size,rank"
fn read_head(s: &[u8]) -> Option<(u64, usize, &[u8])>
    ensures { ReadsHead s.now result }
{
    let (size, rank, end) = read_counts(behind(s, b'N')?)?;
    let rest = behind(end, b'\n')?;
    Some((size as u64, rank, rest))
}

// A line of `rank` numbers behind a letter, "S,shape" or "T,byte strides": the text from its numbers on, and what is behind the line.
fn read_line<'a, T: Number>(
    s: &'a [u8],
    letter: u8,
    rank: usize,
    out: &mut [T],
) -> Option<(&'a [u8], &'a [u8])>
    ensures { TakesLine T.text T.fits letter s.now rank out.old out.new result }
{
    let row = behind(s, letter)?;
    let rest = read_row(row, rank, out)?;
    Some((row, rest))
}

// The lines behind N, to the text's end.
fn read_lines<'a>(
    s: &'a [u8],
    size: u64,
    rank: usize,
    shape: &mut [u64],
    bytes: &mut [i64],
) -> Option<Said<'a>>
    ensures { TakesLines s.now size rank shape.old shape.new bytes.old bytes.new result }
{
    let (sizes, rest) = read_line(s, b'S', rank, shape)?;
    if rest.is_empty() {
        return Some(Said::Packed(size, rank, sizes));
    }
    let (strides, end) = read_line(rest, b'T', rank, bytes)?;
    if end.is_empty() {
        return Some(Said::Given(size, rank, strides));
    }
    None
}

// THE TEXT: what it says, if it is in the form.
pub fn read_description<'a>(s: &'a [u8], shape: &mut [u64], bytes: &mut [i64]) -> Option<Said<'a>>
    ensures { ReadsDescription s.now shape.old shape.new bytes.old bytes.new result }
{
    if MAX_TEXT < s.len() {
        return None;
    }
    let (size, rank, lines) = read_head(s)?;
    read_lines(lines, size, rank, shape, bytes)
}
