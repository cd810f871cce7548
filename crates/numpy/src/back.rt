// The way back: row 19 on every stride handed over, and the text, measured and written.
ghost use Rattle.std.specs.Prelude.{◌≡◌, List, [], ◌∷◌, ℕ, ◌≤◌, length};
ghost use Rattle.strided.specs.Refusals.{refused_by};
ghost use Rattle.strided.specs.Text.{listing_or, filling, row14};
ghost use Rattle.numpy.specs.Numpy.{back_row19};
ghost use Rattle.numpy.specs.Readers.{spelled};
ghost use Rattle.writing.specs.Plan.{measured};
ghost use Rattle.writing.specs.Sink.{Goes};

use super::units::stride_out;
use strided::Refusal;
use writing::line::Line;
use writing::sink::{Counter, Place, Sink};

// Row 19 on the way back: whether there is no size, or some stride in bytes leaves 64-bit signed.
pub fn strides_out(size: u64, strides: &[i64]) -> bool
    ensures { result ≡ (back_row19 size strides.now).applies }
{
    size == 0 || strides.iter().any(|&z| stride_out(size, z))
}

// What the text says: the size of an element, and shape and byte strides in NumPy's order.
#[derive(Clone, Copy)]
pub struct Spelling<'a> {
    pub size: u64,
    pub shape: &'a [u64],
    pub bytes: &'a [i64],
    pub ghost few: { (length shape.now ≤ 64) × (length bytes.now ≤ 64) },
}

// The text, line by line.
fn put_text<'a, S: Sink>(said: Spelling<'a>, sink: S, out: &mut [u8]) -> Option<S>
    requires { S.May sink out.old (spelled said.size said.shape.now said.bytes.now) }
    ensures { let a = said.entry in Goes S.Took S.Full sink out.old (spelled a.size a.shape.now a.bytes.now) out.new result }
{
    let numbers = [said.size, said.shape.len() as u64];
    let none = [0i64; 0];
    let nothing = [0u64; 0];
    let head = Line {
        letter: b'N',
        numbers: &numbers,
        signed: &none,
    };
    let shape = Line {
        letter: b'S',
        numbers: said.shape,
        signed: &none,
    };
    let bytes = Line {
        letter: b'T',
        numbers: &nothing,
        signed: said.bytes,
    };
    let a = sink.take(head, out)?;
    let b = a.take(shape, out)?;
    b.take(bytes, out)
}

// How long the text is, if it is at most `limit` bytes.
// Kept: beside writing's `measure` and `list`, which do the same with a plan. A trait of what goes into a sink, with a clause on what may, and two
// impls of it, would be longer than these bodies.
fn measure(said: Spelling, limit: usize) -> Option<usize>
    ensures { let a = said.entry in result ≡ measured (length (spelled a.size a.shape.now a.bytes.now)) limit }
{
    let mut nothing = [0u8; 0];
    let end = put_text(said, Counter { left: limit }, &mut nothing)?;
    Some(limit - end.left)
}

// The text, in bytes that have room for it; those behind it stay.
fn write(said: Spelling, room: &mut [u8])
    requires { length (spelled said.size said.shape.now said.bytes.now) ≤ length room.old }
    ensures { room.new ≡ (filling (spelled said.entry.size said.entry.shape.now said.entry.bytes.now) room.old).room }
{
    let _ = put_text(said, Place { at: 0 }, room);
}

// The text's length, or refusal 14.
pub fn list(said: Spelling, room: &mut [u8]) -> Result<usize, Refusal>
    ensures { let text : List ℕ = spelled said.entry.size said.entry.shape.now said.entry.bytes.now in
        record { answer = result; room = room.new } ≡ listing_or (refused_by (row14 text (length room.old) ∷ [])) text room.old }
{
    let n = measure(said, room.len()).ok_or(Refusal::Room)?;
    write(said, room);
    Ok(n)
}
