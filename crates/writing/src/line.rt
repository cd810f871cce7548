// Lines of fields, measured and written: a letter, numbers, signed numbers, LF. The lines K, A, B, Z and R are such lines, and so are those of
// other crates: N, S and T.
ghost use Rattle.std.specs.Prelude.{◌≡◌, ◌+◌, ◌*◌, ◌≤◌, length};
ghost use Rattle.strided.specs.Base.{over};
ghost use Rattle.strided.specs.Text.{field, signed_field, line_of, rank_line, axis_line, block_line};
ghost use Rattle.laws.specs.Text.Once.{celled};
ghost use Rattle.writing.specs.Put.{Wrote};
ghost use Rattle.writing.specs.Line.{fields_of, figures_line, longest};

use super::number::{Figure, put_byte};

// How many bytes a field for each number takes.
fn fields_len<T: Figure>(numbers: &[T]) -> usize
    requires { length numbers.now ≤ 64 }
    ensures { (result ≡ length (over numbers.now (celled T.text))) × (result ≤ 21 * length numbers.now) }
{
    let mut k: usize = 0;
    for n in numbers {
        k += 1 + n.text_len();
    }
    k
}

// The same of either kind.
pub fn numbers_len(numbers: &[u64]) -> usize
    requires { length numbers.now ≤ 64 }
    ensures { (result ≡ length (over numbers.now field)) × (result ≤ 21 * length numbers.now) }
{
    fields_len::<u64>(numbers)
}

pub fn signed_len(numbers: &[i64]) -> usize
    requires { length numbers.now ≤ 64 }
    ensures { (result ≡ length (over numbers.now signed_field)) × (result ≤ 21 * length numbers.now) }
{
    fields_len::<i64>(numbers)
}

// How many bytes a line of these fields takes, whatever its letter.
fn line_len<'a, 'b>(numbers: &'a [u64], signed: &'b [i64]) -> usize
    requires { (length numbers.now ≤ 64) × (length signed.now ≤ 64) }
    ensures { (result ≡ 2 + length (fields_of numbers.now signed.now)) × (result ≤ 2 + 21 * (length numbers.now + length signed.now)) }
{
    2 + numbers_len(numbers) + signed_len(signed)
}

// A comma and a number.
fn put_field<T: Figure>(out: &mut [u8], at: usize, n: T) -> usize
    requires { at + length (celled T.text n) ≤ length out.old }
    ensures { Wrote out.old at (celled T.text n) out.new result }
{
    let next = put_byte(out, at, b',');
    n.put(out, next)
}

// A field for each number.
fn put_fields<T: Figure>(out: &mut [u8], at: usize, numbers: &[T]) -> usize
    requires { at + length (over numbers.now (celled T.text)) ≤ length out.old }
    ensures { Wrote out.old at (over numbers.now (celled T.text)) out.new result }
{
    let mut next = at;
    for n in numbers {
        next = put_field(out, next, *n);
    }
    next
}

// Writes a line of these fields, however many they are, at `at`, and answers the place behind it.
pub fn put_line<'a, 'b>(
    out: &mut [u8],
    at: usize,
    letter: u8,
    numbers: &'a [u64],
    signed: &'b [i64],
) -> usize
    requires { at + length (line_of letter (fields_of numbers.now signed.now)) ≤ length out.old }
    ensures { Wrote out.old at (line_of letter (fields_of numbers.now signed.now)) out.new result }
{
    let a = put_byte(out, at, letter);
    let b = put_fields(out, a, numbers);
    let c = put_fields(out, b, signed);
    put_byte(out, c, b'\n')
}

// A line, by its letter and its numbers.
#[derive(Clone, Copy)]
pub struct Line<'a, 'b> {
    pub letter: u8,
    pub numbers: &'a [u64],
    pub signed: &'b [i64],
    pub ghost few: { (length numbers.now ≤ 64) × (length signed.now ≤ 64) },
}

impl<'a, 'b> Line<'a, 'b> {
    // How many bytes it takes.
    pub fn text_len(self) -> usize
        ensures { let l = self.entry in result ≡ length (line_of l.letter (fields_of l.numbers.now l.signed.now)) }
    {
        line_len(self.numbers, self.signed)
    }

    // Writes it at `at`, and answers the place behind it.
    pub fn put(self, out: &mut [u8], at: usize) -> usize
        requires { at + length (line_of self.letter (fields_of self.numbers.now self.signed.now)) ≤ length out.old }
        ensures { let l = self.entry in Wrote out.old at (line_of l.letter (fields_of l.numbers.now l.signed.now)) out.new result }
    {
        put_line(out, at, self.letter, self.numbers, self.signed)
    }
}

// "K,plan rank"
pub fn rank_len(rank: u64) -> usize
    ensures { (result ≡ length (rank_line rank)) × (result ≤ longest) }
{
    line_len(&[rank], &[0i64; 0])
}

pub fn put_rank(out: &mut [u8], at: usize, rank: u64) -> usize
    requires { at + length (rank_line rank) ≤ length out.old }
    ensures { Wrote out.old at (rank_line rank) out.new result }
{
    put_line(out, at, b'K', &[rank], &[0i64; 0])
}

// "A,axis,extent,block,one stride per operand"
pub fn axis_len(axis: u64, extent: u64, block: u64, strides: &[i64]) -> usize
    requires { length strides.now ≤ 8 }
    ensures { (result ≡ length (axis_line axis extent block strides.now)) × (result ≤ longest) }
{
    line_len(&[axis, extent, block], strides)
}

pub fn put_axis(
    out: &mut [u8],
    at: usize,
    axis: u64,
    extent: u64,
    block: u64,
    strides: &[i64],
) -> usize
    requires { at + length (axis_line axis extent block strides.now) ≤ length out.old }
    ensures { Wrote out.old at (axis_line axis extent block strides.now) out.new result }
{
    put_line(out, at, b'A', &[axis, extent, block], strides)
}

// "B,number,length,one offset per operand"
pub fn block_len(number: u64, len: u64, offsets: &[i64]) -> usize
    requires { length offsets.now ≤ 8 }
    ensures { (result ≡ length (block_line number len offsets.now)) × (result ≤ longest) }
{
    line_len(&[number, len], offsets)
}

pub fn put_block(out: &mut [u8], at: usize, number: u64, len: u64, offsets: &[i64]) -> usize
    requires { at + length (block_line number len offsets.now) ≤ length out.old }
    ensures { Wrote out.old at (block_line number len offsets.now) out.new result }
{
    put_line(out, at, b'B', &[number, len], offsets)
}

// "Z,blocks,cells"
pub fn end_len(blocks: u64, cells: u64) -> usize
    ensures { (result ≡ length (figures_line blocks cells)) × (result ≤ longest) }
{
    line_len(&[blocks, cells], &[0i64; 0])
}

pub fn put_end(out: &mut [u8], at: usize, blocks: u64, cells: u64) -> usize
    requires { at + length (figures_line blocks cells) ≤ length out.old }
    ensures { Wrote out.old at (figures_line blocks cells) out.new result }
{
    put_line(out, at, b'Z', &[blocks, cells], &[0i64; 0])
}

// "R,number"
pub fn put_refusal(out: &mut [u8], at: usize, number: u64) -> usize
    requires { at + length (line_of 82 (field number)) ≤ length out.old }
    ensures { Wrote out.old at (line_of 82 (field number)) out.new result }
{
    let numbers = [number];
    let none = [0i64; 0];
    let line = Line {
        letter: b'R',
        numbers: &numbers,
        signed: &none,
    };
    line.put(out, at)
}
