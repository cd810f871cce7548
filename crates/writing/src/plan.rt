// The whole output of a plan: its K, A, B and Z lines. The walk goes in stretches, on local arrays, and checks no block again: a plan that is
// printed is one whose walk begins at the starts 0. It ends at the first line that has no room.
ghost use Rattle.std.specs.Prelude.{◌≡◌, ℕ, ◌≤◌, length};
ghost use Rattle.strided.specs.Base.{over, run};
ghost use Rattle.strided.specs.Text.{printed_plan, filling};
ghost use Rattle.writing.specs.Line.{figures_line};
ghost use Rattle.writing.specs.Plan.{Printable, measured, axis_at, rest_from, listed_in};
ghost use Rattle.writing.specs.Sink.{Goes};

use super::line::Line;
use super::sink::{Counter, Place, Sink};
use super::stretch::put_stretch;
use advance::column;
use layout::LentPlan;
use states::no_block;
use strided::Refusal;
use walker::{ALL, Blocks, Course};

// A plan that can be printed.
#[derive(Clone, Copy)]
pub struct Printed<'a, 'b> {
    pub plan: &'a LentPlan<'b>,
    pub ghost printable: { Printable plan.now },
}

// The A lines of all axes.
fn put_axes<S: Sink>(plan: &LentPlan, sink: S, out: &mut [u8]) -> Option<S>
    requires { S.May sink out.old (over (run 0 plan.now.rank) (axis_at plan.now)) }
    ensures { Goes S.Took S.Full sink out.old (over (run 0 plan.now.rank) (axis_at plan.now)) out.new result }
{
    let mut s = sink;
    for i in 0..plan.rank {
        let numbers = [i as u64, plan.extents[i], plan.blocks[i]];
        let strides = column(plan, i);
        let line = Line {
            letter: b'A',
            numbers: &numbers,
            signed: &strides[..plan.operands],
        };
        s = s.take(line, out)?;
    }
    Some(s)
}

// The Z line.
fn put_end<S: Sink>(blocks: u64, cells: u64, sink: S, out: &mut [u8]) -> Option<S>
    requires { S.May sink out.old (figures_line blocks cells) }
    ensures { Goes S.Took S.Full sink out.old (figures_line blocks cells) out.new result }
{
    let numbers = [blocks, cells];
    let none = [0i64; 0];
    let line = Line {
        letter: b'Z',
        numbers: &numbers,
        signed: &none,
    };
    sink.take(line, out)
}

// The B and Z lines. The Z figures are what the loop has counted. With a zero extent there is no block, and how far a stretch would move need
// not fit.
fn put_walk<'a, 'b, S: Sink>(printed: Printed<'a, 'b>, sink: S, out: &mut [u8]) -> Option<S>
    requires { S.May sink out.old (rest_from printed.plan.now 0) }
    ensures { Goes S.Took S.Full sink out.old (rest_from printed.entry.plan.now 0) out.new result }
{
    let plan = printed.plan;
    if no_block(plan) {
        return put_end(0, 0, sink, out);
    }
    let course = Course::of(plan);
    let d = course.moves();
    let mut at = course.state_at([0u64; 64], [0i64; 8]);
    let mut first = [0i64; 8];
    let mut more = true;
    let mut s = sink;
    let mut number: u64 = 0;
    let mut cells: u64 = 0;
    while more {
        let next = course.take_stretch(ALL, &mut at, &mut first);
        let stretch = Blocks {
            plan,
            next,
            first: &first,
            moves: &d,
        };
        s = put_stretch(stretch, number, s, out)?;
        number += next.count;
        cells += next.count * next.length;
        more = next.more;
    }
    put_end(number, cells, s, out)
}

// All lines of the output.
fn put_plan<'a, 'b, S: Sink>(printed: Printed<'a, 'b>, sink: S, out: &mut [u8]) -> Option<S>
    requires { S.May sink out.old (printed_plan printed.plan.now) }
    ensures { Goes S.Took S.Full sink out.old (printed_plan printed.entry.plan.now) out.new result }
{
    let plan = printed.plan;
    let numbers = [plan.rank as u64];
    let none = [0i64; 0];
    let line = Line {
        letter: b'K',
        numbers: &numbers,
        signed: &none,
    };
    let head = sink.take(line, out)?;
    let axes = put_axes(plan, head, out)?;
    put_walk(printed, axes, out)
}

// THE LENGTH OF A PLAN'S OUTPUT, if it is at most `limit`.
pub fn measure<'a, 'b>(printed: Printed<'a, 'b>, limit: usize) -> Option<usize>
    ensures { result ≡ measured (length (printed_plan printed.entry.plan.now)) limit }
{
    let mut nothing = [0u8; 0];
    let end = put_plan(printed, Counter { left: limit }, &mut nothing)?;
    Some(limit - end.left)
}

// THE OUTPUT, in bytes that have room for it; those behind it stay. It answers the output's length.
pub fn write<'a, 'b>(printed: Printed<'a, 'b>, out: &mut [u8]) -> usize
    requires { length (printed_plan printed.plan.now) ≤ length out.old }
    ensures value { result ≡ length (printed_plan printed.entry.plan.now) }
    ensures out_after { out.new ≡ (filling (printed_plan printed.entry.plan.now) out.old).room }
{
    // there is room, so there is an end
    match put_plan(printed, Place { at: 0 }, out) {
        Some(end) => end.at,
        None => 0,
    }
}

// THE OUTPUT WHERE IT HAS ROOM: its length, or refusal 14. It is measured before it is written, so a refusal leaves every byte.
pub fn list<'a, 'b>(printed: Printed<'a, 'b>, room: &mut [u8]) -> Result<usize, Refusal>
    ensures { record { answer = result; room = room.new } ≡ listed_in printed.entry.plan.now room.old }
{
    let n = measure(printed, room.len()).ok_or(Refusal::Room)?;
    write(printed, room);
    Ok(n)
}
