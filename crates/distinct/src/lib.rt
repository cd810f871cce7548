// Whether two indices of a layout of at most 4,096 cells share an offset. Its offsets are listed axis by axis, and two that meet end it.
#![tactic(auto)]

ghost use Rattle.std.specs.Prelude.{◌≡◌, ◌↔◌, true, ◌≤◌};
ghost use Rattle.strided.specs.Layout.{total};
ghost use Rattle.strided.specs.Mark.{Shared};
ghost use Rattle.distinct.specs.Operand.{NearOffsets};

use copies::spread;
use few::few_repeat;
use layout::total_at_most;

mod copies;
mod few;
mod merge;

// One operand of a layout, with what the rows about it let through: a stride for each axis, and offsets that stay near. No extent is 0.
#[derive(Clone, Copy)]
pub struct Operand<'a> {
    pub extents: &'a [u64],
    pub strides: &'a [i64],
    pub ghost sound: { NearOffsets extents.now strides.now },
}

// The rising list of at most 4,096 cells begins with the one offset of no axis and is spread over the axes, the last first. Sizes of strides
// serve for strides: an axis walked from its other end has the same offsets, all moved by one number.
// Kept: apart from `few_repeat`. One function for both would take what lists an axis as a closure over its arrays, and be no plainer.
fn many_repeat(operand: Operand) -> bool
    requires { total operand.extents.now ≤ 4096 }
    ensures { (result ≡ true) ↔ Shared operand.entry.extents.now operand.entry.strides.now }
{
    let mut list = [0u64; 4096];
    let mut spare = [0u64; 4096];
    let mut n: usize = 1;
    for i in (0..operand.extents.len()).rev() {
        let extent = operand.extents[i] as usize;
        if 1 < extent {
            if !spread(
                &mut list,
                n,
                extent,
                operand.strides[i].unsigned_abs(),
                &mut spare,
            ) {
                return true;
            }
            n *= extent;
        }
    }
    false
}

// Whether two indices share an offset. Few cells need no merging, and none of its two arrays.
pub fn repeats(operand: Operand) -> bool
    requires { total operand.extents.now ≤ 4096 }
    ensures { (result ≡ true) ↔ Shared operand.entry.extents.now operand.entry.strides.now }
{
    if total_at_most(operand.extents, 256) {
        return few_repeat(operand);
    }
    many_repeat(operand)
}
