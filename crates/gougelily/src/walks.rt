// A walk from C: its beginning, and one step of a state that is lent.
ghost use Rattle.std.specs.Prelude.{◌≡◌};
ghost use Rattle.strided.specs.Begin.{begun_at};
ghost use Rattle.strided.specs.Step.{stepped};
ghost use Rattle.strided.specs.Memory.{plan_of, walk_at, walk_in, step_at, Steps, Begins};

use super::codes::code;
use layout::LentPlan;
use states::begin_on;
use walk::arrays::step_into;
use walk::memory::put_walk;

// A walk's beginning.
// Kept: the two calls of states' `arrays::begin_on`, for where that is called instead, the compiled code copies the walk once more (583 bytes of
// code and 592 of stack).
#[unsafe(no_mangle)]
pub extern "C" fn gougelily_begin<'a>(
    rank: usize,
    operands: usize,
    extents: &'a [u64; 64],
    blocks: &'a [u64; 64],
    strides: &'a [i64; 512],
    starts: &'a [i64],
    ended: &mut [u64; 1],
    counters: &mut [u64; 64],
    offsets: &mut [i64; 8],
) -> i64
    ensures { Begins (begun_at (plan_of rank operands extents.now blocks.now strides.now) starts.now)
        (walk_at ended.old counters.old offsets.old)
        (walk_at ended.new counters.new offsets.new)
        result }
{
    let plan = served!(LentPlan::of(rank, operands, extents, blocks, strides));
    let walk = served!(begin_on(&plan, starts));
    put_walk(walk, ended, counters, offsets);
    0
}

// One step of a lent walk.
#[unsafe(no_mangle)]
pub extern "C" fn gougelily_step<'a>(
    rank: usize,
    operands: usize,
    extents: &'a [u64; 64],
    blocks: &'a [u64; 64],
    strides: &'a [i64; 512],
    ended: &mut [u64; 1],
    counters: &mut [u64; 64],
    offsets: &mut [i64; 8],
    block_counters: &mut [u64; 64],
    length: &mut [u64; 1],
    block_offsets: &mut [i64; 8],
    block_strides: &mut [i64; 8],
) -> i64
    ensures { let p = plan_of rank operands extents.now blocks.now strides.now in
        let w = walk_at ended.old counters.old offsets.old in
        let w' = walk_at ended.new counters.new offsets.new in
        let old = step_at w block_counters.old length.old block_offsets.old block_strides.old in
        let new = step_at w' block_counters.new length.new block_offsets.new block_strides.new in
        Steps (stepped p (walk_in w)) old new result }
{
    let some = step_into(
        rank,
        operands,
        extents,
        blocks,
        strides,
        ended,
        counters,
        offsets,
        block_counters,
        length,
        block_offsets,
        block_strides,
    );
    code(some, i64::from)
}
