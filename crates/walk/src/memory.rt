// A walk in lent arrays, as C functions have it: a plan made of them, and one step of the state that lies in them.
ghost use Rattle.std.specs.Prelude.{◌≡◌, true, false, Ok};
ghost use Rattle.strided.specs.Step.{stepped};
ghost use Rattle.strided.specs.Memory.{plan_of, walk_of, flag as flagOf, walk_at, walk_in, walk_memory, step_at};
ghost use Rattle.walk.specs.Lent.{Taken, SteppedInto};

use crate::answer_of;
use crate::onward::advance_on;
use advance::{firsts, length_by, width_on};
use layout::LentPlan;
use states::LentWalk;
use strided::{Plan, Refusal, Walk};

// 1 for yes, 0 for no.
pub fn flag(b: bool) -> u64
    ensures { result ≡ flagOf b }
{
    u64::from(b)
}

// A plan from its numbers and arrays. Kept: the five one by one, as C lends them.
pub fn plan_of<'a>(
    rank: usize,
    operands: usize,
    extents: &'a [u64; 64],
    blocks: &'a [u64; 64],
    strides: &'a [i64; 512],
) -> Plan
    ensures { result ≡ plan_of rank operands extents.now blocks.now strides.now }
{
    Plan {
        rank,
        operands,
        extents: *extents,
        blocks: *blocks,
        strides: *strides,
    }
}

// A state from its flag and arrays.
pub fn walk_of<'a>(ended: &'a [u64; 1], counters: &'a [u64; 64], offsets: &'a [i64; 8]) -> Walk
    ensures { result ≡ walk_in (walk_at ended.now counters.now offsets.now) }
{
    Walk {
        ended: ended[0] != 0,
        counters: *counters,
        offsets: *offsets,
    }
}

// A state, written to where its flag and arrays are lent.
pub fn put_walk(walk: Walk, ended: &mut [u64; 1], counters: &mut [u64; 64], offsets: &mut [i64; 8])
    ensures { walk_at ended.new counters.new offsets.new ≡ walk_memory walk }
{
    let Walk {
        ended: over,
        counters: c,
        offsets: o,
    } = walk;
    *ended = [flag(over)];
    *counters = c;
    *offsets = o;
}

// Kept: in block_into and step_into what a step moves and what it hands out, array by array, as C lends them. A struct of lent arrays would
// have to say of each that it lends the same one on.

// Kept: Taken as a clause, here and in block_at, bulk::put_blocks and views::memory::found_into. A struct of a walk that runs would lend the
// counters and offsets, which this, put_blocks and found_into change. For block_at alone it is no plainer: the clause would stay beside it.

// The block at the counters, and the state at the next one, in the lent arrays. It checks nothing.
// The hint: compiled as a function of its own for its two callers it takes 14 instructions more a step, of 840, and 42 more a visit, of 1,500.
#[inline(always)]
pub fn block_into(
    plan: &LentPlan,
    ended: &mut [u64; 1],
    counters: &mut [u64; 64],
    offsets: &mut [i64; 8],
    block_counters: &mut [u64; 64],
    length: &mut [u64; 1],
    block_offsets: &mut [i64; 8],
    block_strides: &mut [i64; 8],
)
    requires { Taken plan.now (walk_of false counters.old offsets.old) }
    ensures { let w = walk_at ended.old counters.old offsets.old in
        let w' = walk_at ended.new counters.new offsets.new in
        let old = step_at w block_counters.old length.old block_offsets.old block_strides.old in
        let new = step_at w' block_counters.new length.new block_offsets.new block_strides.new in
        SteppedInto (stepped plan.now (walk_of false counters.old offsets.old)) old new (Ok true) }
{
    let bl = length_by(plan, width_on(plan, 0), counters[0]);
    *block_counters = *counters;
    *length = [bl];
    // Behind the copy of the counters, which is a call: the strides would be kept on the stack over it.
    let bs = firsts(plan);
    *block_offsets = *offsets;
    *block_strides = bs;
    let more = advance_on(plan, counters, offsets);
    *ended = [flag(!more)];
}

// One step in the lent arrays; it says whether there is a block. Neither the plan nor the state is copied.
pub fn step_into(
    plan: &LentPlan,
    ended: &mut [u64; 1],
    counters: &mut [u64; 64],
    offsets: &mut [i64; 8],
    block_counters: &mut [u64; 64],
    length: &mut [u64; 1],
    block_offsets: &mut [i64; 8],
    block_strides: &mut [i64; 8],
) -> Result<bool, Refusal>
    ensures { let w = walk_at ended.old counters.old offsets.old in
        let w' = walk_at ended.new counters.new offsets.new in
        let old = step_at w block_counters.old length.old block_offsets.old block_strides.old in
        let new = step_at w' block_counters.new length.new block_offsets.new block_strides.new in
        SteppedInto (stepped plan.now (walk_in w)) old new result }
{
    let walk = LentWalk {
        ended: ended[0] != 0,
        counters: &*counters,
        offsets: &*offsets,
    };
    let some = answer_of(plan, &walk)?;
    if some {
        block_into(
            plan,
            ended,
            counters,
            offsets,
            block_counters,
            length,
            block_offsets,
            block_strides,
        );
    }
    Ok(some)
}
