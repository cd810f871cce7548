// The B lines of a stretch of blocks. They differ in the block's number and in its offsets, which move on from line to line.
ghost use Rattle.std.specs.Prelude.{◌+◌, ◌^◌, ◌<◌};
ghost use Rattle.writing.specs.Sink.{Goes};
ghost use Rattle.writing.specs.Stretch.{lines_in};

use super::arrays::put_lines;
use super::sink::Sink;
use walker::Blocks;

// They are numbered from `number` on.
pub fn put_stretch<'a, 'b, S: Sink>(
    stretch: Blocks<'a, 'b>,
    number: u64,
    sink: S,
    out: &mut [u8],
) -> Option<S>
    requires numbers { number + stretch.next.count < 2 ^ 64 }
    requires may { S.May sink out.old (lines_in stretch.plan.now.operands stretch.next number stretch.moves.now stretch.first.now) }
    ensures { let b = stretch.entry in
        Goes S.Took S.Full sink out.old (lines_in b.plan.now.operands b.next number b.moves.now b.first.now) out.new result }
{
    let plan = stretch.plan;
    put_lines(
        stretch.next,
        number,
        plan.operands,
        stretch.moves,
        stretch.first,
        sink,
        out,
    )
}
