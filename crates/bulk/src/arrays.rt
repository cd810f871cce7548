// Many steps on a plan's five arrays, whatever their numbers: rows 1 and 2 come first.
ghost use Rattle.std.specs.Prelude.{◌≡◌};
ghost use Rattle.strided.specs.Bulk.{many_of, stepped_many};
ghost use Rattle.strided.specs.Memory.{plan_of};

use layout::LentPlan;
use strided::{Refusal, Several, Walk};

// Many steps, with the state by value. Where they are refused both slices are as they were. Kept: the counts and the arrays one by one, as C
// lends a plan.
pub fn step_many_on<'a>(
    rank: usize,
    operands: usize,
    extents: &'a [u64; 64],
    blocks: &'a [u64; 64],
    strides: &'a [i64; 512],
    walk: Walk,
    lengths: &mut [u64],
    offsets: &mut [i64],
) -> Result<Several, Refusal>
    ensures { let p = plan_of rank operands extents.now blocks.now strides.now in
        many_of result lengths.new offsets.new ≡ stepped_many p walk lengths.old offsets.old }
{
    crate::step_many_on(
        &LentPlan::of(rank, operands, extents, blocks, strides)?,
        walk,
        lengths,
        offsets,
    )
}
