// A step on a plan's five arrays, whatever their numbers: rows 1 and 2 come first. And what it is made of, which asks no more than it needs.
ghost use Rattle.std.specs.Prelude.{◌≡◌, ◌<◌, ◌≤◌, get_or, []};
ghost use Rattle.strided.specs.Step.{stepped};
ghost use Rattle.strided.specs.Memory.{plan_of, walk_of, walk_at, walk_in, step_at};
ghost use Rattle.advance.specs.Axis.{widths};
ghost use Rattle.advance.specs.Blocks.{length_of};
ghost use Rattle.advance.specs.Carry.{Roomy};
ghost use Rattle.walk.specs.Lent.{Answers, SteppedInto};
ghost use Rattle.walk.specs.Onward.{lone, AdvancesOn};

use crate::{memory, onward};
use advance::arrays::width_of;
use layout::LentPlan;
use states::LentWalk;
use strided::Refusal;

// Kept: in all of these the counts and the arrays one by one, as C lends a plan and a state.

// Whether a step hands out a block, and not the end: rows 1 and 2, then row 10.
pub fn answer_of<'a>(
    ended: bool,
    rank: usize,
    operands: usize,
    extents: &'a [u64; 64],
    blocks: &'a [u64; 64],
    strides: &'a [i64; 512],
    counters: &'a [u64; 64],
    offsets: &'a [i64; 8],
) -> Result<bool, Refusal>
    ensures { Answers (plan_of rank operands extents.now blocks.now strides.now) (walk_of ended counters.now offsets.now) result }
{
    let walk = LentWalk {
        ended,
        counters,
        offsets,
    };
    crate::answer_of(
        &LentPlan::of(rank, operands, extents, blocks, strides)?,
        &walk,
    )
}

// One step in the lent arrays; it says whether there is a block. Where it is refused they are as they were.
pub fn step_into<'a>(
    rank: usize,
    operands: usize,
    extents: &'a [u64; 64],
    blocks: &'a [u64; 64],
    strides: &'a [i64; 512],
    ended: &mut [u64; 1],
    counters: &mut [u64; 64],
    offsets: &mut [i64; 8],
    block_counters: &mut [u64; 64],
    length: &mut [u64; 1],
    block_offsets: &mut [i64; 8],
    block_strides: &mut [i64; 8],
) -> Result<bool, Refusal>
    ensures { let p = plan_of rank operands extents.now blocks.now strides.now in
        let w = walk_at ended.old counters.old offsets.old in
        let w' = walk_at ended.new counters.new offsets.new in
        let old = step_at w block_counters.old length.old block_offsets.old block_strides.old in
        let new = step_at w' block_counters.new length.new block_offsets.new block_strides.new in
        SteppedInto (stepped p (walk_in w)) old new result }
{
    let plan = LentPlan::of(rank, operands, extents, blocks, strides)?;
    memory::step_into(
        &plan,
        ended,
        counters,
        offsets,
        block_counters,
        length,
        block_offsets,
        block_strides,
    )
}

// The length of the block at the counters. Neither the operands nor their strides have a part in it.
pub fn length_on<'a>(
    rank: usize,
    extents: &'a [u64; 64],
    blocks: &'a [u64; 64],
    counters: &'a [u64; 64],
) -> u64
    requires { (rank ≤ 64) × (0 < rank → get_or counters.now 0 0 < get_or extents.now 0 0) }
    ensures { let p = plan_of rank 0 extents.now blocks.now [] in result ≡ length_of p (widths p) counters.now }
{
    let width = width_of(rank, 0, extents[0], blocks[0]);
    advance::arrays::length_on(rank, extents[0], width, counters[0])
}

// Moves the counters and the offsets to the next block. Says whether there is one; if not, both are back at the start. Without operands, which
// row 2 refuses, the counters alone move, as with an operand that stands still.
pub fn advance_on<'a>(
    rank: usize,
    operands: usize,
    extents: &'a [u64; 64],
    blocks: &'a [u64; 64],
    strides: &'a [i64; 512],
    counters: &mut [u64; 64],
    offsets: &mut [i64; 8],
) -> bool
    requires { Roomy (plan_of rank operands extents.now blocks.now strides.now) (lone counters.old offsets.old) }
    ensures { AdvancesOn (plan_of rank operands extents.now blocks.now strides.now) counters.old offsets.old result counters.new offsets.new }
{
    if operands == 0 {
        let still = LentPlan {
            rank,
            operands: 1,
            extents,
            blocks,
            strides: &[0i64; 512],
        };
        let mut starts = [0i64; 8];
        return onward::advance_on(&still, counters, &mut starts);
    }
    let plan = LentPlan {
        rank,
        operands,
        extents,
        blocks,
        strides,
    };
    onward::advance_on(&plan, counters, offsets)
}
