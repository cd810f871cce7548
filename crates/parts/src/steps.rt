// One step of a walk in lent arrays, by the public step by value and by the lent step. Both copy the plan, 5 KB, out of the lent arrays for
// each call, since they take it by value. They answer 1 for a block and 0 for the end, or a refusal's number negated, and then every lent
// byte is as it was.
ghost use Rattle.std.specs.Prelude.{◌≡◌};
ghost use Rattle.strided.specs.Step.{stepped};
ghost use Rattle.strided.specs.Memory.{plan_of, walk_at, walk_in, step_at, Steps};
ghost use Rattle.parts.specs.States.{with_state};

use layout::negated;
use strided::{Refusal, Stepped, Walk};
use walk::memory::{plan_of, put_walk, walk_of};
use walk::{step, step_lent};

// What a step answers, and its state and its block in the lent arrays, if it has one.
fn hand_out(
    answer: Result<Stepped, Refusal>,
    ended: &mut [u64; 1],
    counters: &mut [u64; 64],
    offsets: &mut [i64; 8],
    block_counters: &mut [u64; 64],
    length: &mut [u64; 1],
    block_offsets: &mut [i64; 8],
    block_strides: &mut [i64; 8],
) -> i64
    ensures { let w = walk_at ended.old counters.old offsets.old in
        let w' = walk_at ended.new counters.new offsets.new in
        let old = step_at w block_counters.old length.old block_offsets.old block_strides.old in
        let new = step_at w' block_counters.new length.new block_offsets.new block_strides.new in
        Steps answer old new result }
{
    match answer {
        Err(refusal) => negated(refusal),
        Ok(stepped) => match stepped.block {
            None => 0,
            Some(block) => {
                let bc = block.counters;
                let bo = block.offsets;
                let bs = block.strides;
                put_walk(stepped.walk, ended, counters, offsets);
                *block_counters = bc;
                *length = [block.length];
                *block_offsets = bo;
                *block_strides = bs;
                1
            }
        },
    }
}

// A step by value.
#[unsafe(no_mangle)]
pub extern "C" fn parts_step<'a>(
    rank: usize,
    operands: usize,
    extents: &'a [u64; 64],
    blocks: &'a [u64; 64],
    strides: &'a [i64; 512],
    ended: &mut [u64; 1],
    counters: &mut [u64; 64],
    offsets: &mut [i64; 8],
    block_counters: &mut [u64; 64],
    length: &mut [u64; 1],
    block_offsets: &mut [i64; 8],
    block_strides: &mut [i64; 8],
) -> i64
    ensures { let p = plan_of rank operands extents.now blocks.now strides.now in
        let w = walk_at ended.old counters.old offsets.old in
        let w' = walk_at ended.new counters.new offsets.new in
        let old = step_at w block_counters.old length.old block_offsets.old block_strides.old in
        let new = step_at w' block_counters.new length.new block_offsets.new block_strides.new in
        Steps (stepped p (walk_in w)) old new result }
{
    let walk = walk_of(ended, counters, offsets);
    let stepped = step(plan_of(rank, operands, extents, blocks, strides), walk);
    hand_out(
        stepped,
        ended,
        counters,
        offsets,
        block_counters,
        length,
        block_offsets,
        block_strides,
    )
}

// What was returned, with the state that was left in place of its own.
fn with_state(answer: Result<Stepped, Refusal>, walk: Walk) -> Result<Stepped, Refusal>
    ensures { result ≡ with_state answer walk }
{
    answer.map(|stepped| Stepped { walk, ..stepped })
}

// A lent step.
#[unsafe(no_mangle)]
pub extern "C" fn parts_step_lent<'a>(
    rank: usize,
    operands: usize,
    extents: &'a [u64; 64],
    blocks: &'a [u64; 64],
    strides: &'a [i64; 512],
    ended: &mut [u64; 1],
    counters: &mut [u64; 64],
    offsets: &mut [i64; 8],
    block_counters: &mut [u64; 64],
    length: &mut [u64; 1],
    block_offsets: &mut [i64; 8],
    block_strides: &mut [i64; 8],
) -> i64
    ensures { let p = plan_of rank operands extents.now blocks.now strides.now in
        let w = walk_at ended.old counters.old offsets.old in
        let w' = walk_at ended.new counters.new offsets.new in
        let old = step_at w block_counters.old length.old block_offsets.old block_strides.old in
        let new = step_at w' block_counters.new length.new block_offsets.new block_strides.new in
        Steps (stepped p (walk_in w)) old new result }
{
    let plan = plan_of(rank, operands, extents, blocks, strides);
    let walk = walk_of(ended, counters, offsets);
    let mut state = walk;
    let stepped = step_lent(plan, &mut state);
    hand_out(
        with_state(stepped, state),
        ended,
        counters,
        offsets,
        block_counters,
        length,
        block_offsets,
        block_strides,
    )
}
