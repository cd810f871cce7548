// A stretch of the walk as a patch of cells: offsets and strides in bytes.
ghost use Rattle.std.specs.Prelude.{◌≡◌, ◌<◌, pos, ◌*ℤ◌, length};
ghost use Rattle.std.specs.Int.{w64};
ghost use Rattle.std.proofs.Common.{SFits};
ghost use Rattle.cells.specs.Copy.{copied};
ghost use Rattle.export.specs.Blocks.{stretch_cells, Stretching, Bytes, InBytes};

use super::width::Width;
use cells::{Patch, Side, copy_patch};
use walker::Blocks;

// A step in bytes, where there is one to make.
fn byte_step(count: u64, step: i64, width: Width) -> i64
    requires { 1 < count → SFits w64 (step *ℤ pos width.bytes) }
    ensures { 1 < count → result ≡ step *ℤ pos width.bytes }
{
    if 1 < count {
        step * (width.bytes as i64)
    } else {
        0
    }
}

// Where an operand's cells of a stretch lie: `n1` blocks of `n0` cells, the first at offset `first`, `along` on from cell to cell and `on`
// from block to block.
fn side_of(n0: u64, n1: u64, first: i64, along: i64, on: i64, width: Width) -> Side
    requires { Bytes width.bytes n0 n1 first along on }
    ensures { InBytes width.bytes n0 n1 first along on result }
{
    let at = (first as usize) * width.bytes;
    let step0 = byte_step(n0, along, width);
    let step1 = byte_step(n1, on, width);
    Side {
        first: at,
        step0,
        step1,
    }
}

// The cells of a stretch.
pub fn copy_stretch<'a, 'b>(
    stretch: Blocks<'a, 'b>,
    width: Width,
    destination: &mut [u8],
    source: &[u8],
)
    requires { Stretching width.bytes (length destination.old) (length source.now)
        stretch.next stretch.plan.now.strides stretch.moves.now stretch.first.now }
    ensures { let b = stretch.entry in destination.new ≡ copied width.bytes
        (stretch_cells width.bytes b.next.length b.next.count b.plan.now.strides b.moves.now b.first.now) destination.old source.now }
{
    let n0 = stretch.next.length;
    let n1 = stretch.next.count;
    let plan = stretch.plan;
    let s = plan.strides;
    let d = stretch.moves;
    let first = stretch.first;
    let to = side_of(n0, n1, first[0], s[0], d[0], width);
    let from = side_of(n0, n1, first[1], s[64], d[1], width);
    let patch = Patch {
        n0,
        n1,
        width: width.bytes,
        to,
        from,
    };
    copy_patch(destination, source, patch);
}
