// The B lines of a stretch's blocks, by the numbers one by one, for whoever has no plan to lend: handed on, measured, written.
ghost use Rattle.std.specs.Prelude.{◌≡◌, ◌+◌, ◌^◌, ◌<◌, ◌≤◌, length};
ghost use Rattle.walker.specs.Stretch.{RowsFit};
ghost use Rattle.writing.specs.Put.{Wrote};
ghost use Rattle.writing.specs.Plan.{measured};
ghost use Rattle.writing.specs.Sink.{Goes};
ghost use Rattle.writing.specs.Stretch.{lines_in};

use super::line::Line;
use super::sink::{Counter, Place, Sink};
use walker::Next;
use walker::arrays::move_by;

// They are numbered from `number` on; `first` are the offsets of the first one, and each operand moves by its place of `d`.
pub fn put_lines<'a, 'b, S: Sink>(
    x: Next,
    number: u64,
    operands: usize,
    d: &'a [i64; 8],
    first: &'b [i64; 8],
    sink: S,
    out: &mut [u8],
) -> Option<S>
    requires rows_fit { RowsFit x.count operands d.now first.now }
    requires numbers { number + x.count < 2 ^ 64 }
    requires may { S.May sink out.old (lines_in operands x number d.now first.now) }
    ensures { Goes S.Took S.Full sink out.old (lines_in operands x number d.now first.now) out.new result }
{
    let count = x.count;
    let mut o = *first;
    let mut s = sink;
    for j in 0..count {
        let numbers = [number + j, x.length];
        let line = Line {
            letter: b'B',
            numbers: &numbers,
            signed: &o[..operands],
        };
        s = s.take(line, out)?;
        if j + 1 < count {
            move_by(operands, d, &mut o);
        }
    }
    Some(s)
}

// How long they are behind `used` bytes, if that is at most `limit` bytes in all.
pub fn stretch_len(
    x: Next,
    number: u64,
    operands: usize,
    d: &[i64; 8],
    first: [i64; 8],
    used: usize,
    limit: usize,
) -> Option<usize>
    requires rows_fit { RowsFit x.count operands d.now first }
    requires count_bound { (number + x.count < 2 ^ 64) × (used ≤ limit) }
    ensures { result ≡ measured (used + length (lines_in operands x number d.now first)) limit }
{
    let mut nothing = [0u8; 0];
    let sink = Counter { left: limit - used };
    let end = put_lines(x, number, operands, d, &first, sink, &mut nothing)?;
    Some(limit - end.left)
}

// Writes them at `at`, and answers the place behind them.
pub fn put_stretch(
    out: &mut [u8],
    at: usize,
    x: Next,
    number: u64,
    operands: usize,
    d: &[i64; 8],
    first: [i64; 8],
) -> usize
    requires rows_fit { RowsFit x.count operands d.now first }
    requires count_bound { number + x.count < 2 ^ 64 }
    requires d_in_bounds { at + length (lines_in operands x number d.now first) ≤ length out.old }
    ensures { Wrote out.old at (lines_in operands x number d.now first) out.new result }
{
    // there is room, so there is an end
    match put_lines(x, number, operands, d, &first, Place { at }, out) {
        Some(end) => end.at,
        None => 0,
    }
}
