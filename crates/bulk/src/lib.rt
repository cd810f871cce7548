// Many steps of a walk in one call, for hosts that pay for every call: row 10 is checked once, and the next blocks are written as numbers.
#![tactic(auto)]

ghost use Rattle.std.specs.Prelude.{◌≡◌, false, ◌+◌, ◌*◌, ◌≤◌, ◌<◌, length, replicate};
ghost use Rattle.std.proofs.Math.Seq.{paste};
ghost use Rattle.strided.specs.Bulk.{room_for, many_of, stepped_many};
ghost use Rattle.strided.specs.Memory.{walk_of, walk_at, walk_in, walk_memory, many_at};
ghost use Rattle.walk.specs.Lent.{Taken};
ghost use Rattle.bulk.specs.Blocks.{SteppedManyInto, HasRoom, Wrote, row_at, rows_for, RowFits, MayPut};

use advance::State;
use layout::LentPlan;
use strided::{Plan, Refusal, Several, Walk};
use walk::memory::{flag, walk_of};
use walk::{LentWalk, answer_of};
use walker::Course;

pub mod arrays;

// The walk stands at a state, or has ended with it.
fn put_state(
    over: bool,
    at: &State,
    ended: &mut [u64; 1],
    counters: &mut [u64; 64],
    offsets: &mut [i64; 8],
)
    ensures { walk_at ended.new counters.new offsets.new ≡ walk_memory (walk_of over at.now.counters at.now.offsets) }
{
    *ended = [flag(over)];
    *counters = at.counters;
    *offsets = at.offsets;
}

// How many blocks two slices of so many places have room for.
fn room_for(plan: &LentPlan, lengths: usize, offsets: usize) -> usize
    ensures { result ≡ room_for plan.now.operands lengths offsets }
{
    let blocks = offsets / plan.operands;
    lengths.min(blocks)
}

// The offsets of block j of a stretch, operand by operand: each is its place of `o` and j times its place of `d`.
// Kept: a range, for the reason at walker::arrays::move_by.
fn put_row<'a>(j: usize, d: &'a [i64; 8], o: &'a [i64; 8], row: &mut [i64])
    requires { RowFits j (length row.old) d.now o.now }
    ensures { row.new ≡ row_at (length row.old) d.now o.now j }
{
    let times = j as i64;
    for k in 0..row.len() {
        row[k] = o[k] + times * d[k];
    }
}

// The length of `count` blocks, from place `at` on.
fn put_lengths(count: usize, at: usize, len: u64, lengths: &mut [u64])
    requires { at + count ≤ length lengths.old }
    ensures { lengths.new ≡ paste lengths.old at (replicate count len) count }
{
    lengths[at..at + count].fill(len);
}

// The offsets of so many blocks, from block `at` on: those of the first stand in `o`, and each moves on by its place of `d`.
fn put_rows<'a>(
    blocks: usize,
    plan: &LentPlan,
    at: usize,
    d: &'a [i64; 8],
    o: &'a [i64; 8],
    offsets: &mut [i64],
)
    requires { MayPut blocks plan.now.operands at d.now o.now offsets.old }
    ensures { let m = plan.now.operands in
        offsets.new ≡ paste offsets.old (at * m) (rows_for blocks m d.now o.now) (blocks * m) }
{
    for j in 0..blocks {
        let from = (at + j) * plan.operands;
        put_row(j, d, o, &mut offsets[from..from + plan.operands]);
    }
}

// Writes the next blocks, at most `most`, from a state that runs, stretch by stretch, and says how many they are. It checks nothing. The lent
// state is copied once, and written back once.
fn put_blocks(
    most: usize,
    plan: &LentPlan,
    ended: &mut [u64; 1],
    counters: &mut [u64; 64],
    start: &mut [i64; 8],
    lengths: &mut [u64],
    offsets: &mut [i64],
) -> usize
    requires taken { Taken plan.now (walk_of false counters.old start.old) }
    requires has_room { HasRoom most plan.now.operands lengths.old offsets.old }
    ensures { let w = walk_of false counters.old start.old in
        let w' = walk_at ended.new counters.new start.new in
        Wrote most plan.now w lengths.old offsets.old result w' lengths.new offsets.new }
{
    let course = Course::of(plan);
    let d = course.moves();
    let mut at = course.state_at(*counters, *start);
    let mut n = 0;
    while n < most {
        let x = course.stretch_here(&at);
        let limit = (most - n) as u64;
        let count = limit.min(x.left) as usize;
        put_lengths(count, n, x.length, &mut *lengths);
        put_rows(count, plan, n, &d, &at.offsets, &mut *offsets);
        n += count;
        if !course.hop(limit, x.left, &mut at) && !course.go_behind(limit, x.left, &mut at) {
            put_state(true, &at, ended, counters, start);
            return n;
        }
    }
    put_state(false, &at, ended, counters, start);
    n
}

// Many steps in the lent arrays: row 10, whatever the values; then as many of the next blocks as both slices have room for. Block j's length
// goes to place j of `lengths`, its offset of operand k to place j * operands + k of `block_offsets`. It says how many blocks they are, if the
// walk had not ended. Neither the plan nor the state is handed over by value.
pub fn step_many_into(
    plan: &LentPlan,
    ended: &mut [u64; 1],
    counters: &mut [u64; 64],
    offsets: &mut [i64; 8],
    lengths: &mut [u64],
    block_offsets: &mut [i64],
) -> Result<Option<usize>, Refusal>
    ensures { let w = walk_at ended.old counters.old offsets.old in
        let w' = walk_at ended.new counters.new offsets.new in
        let old = many_at w lengths.old block_offsets.old in
        let new = many_at w' lengths.new block_offsets.new in
        SteppedManyInto (stepped_many plan.now (walk_in w) lengths.old block_offsets.old) old new result }
{
    let walk = LentWalk {
        ended: ended[0] != 0,
        counters: &*counters,
        offsets: &*offsets,
    };
    if answer_of(plan, &walk)? {
        let room = room_for(plan, lengths.len(), block_offsets.len());
        let blocks = put_blocks(room, plan, ended, counters, offsets, lengths, block_offsets);
        return Ok(Some(blocks));
    }
    Ok(None)
}

// Many steps on a plan that is lent, with the state by value.
pub fn step_many_on(
    plan: &LentPlan,
    walk: Walk,
    lengths: &mut [u64],
    offsets: &mut [i64],
) -> Result<Several, Refusal>
    ensures { many_of result lengths.new offsets.new ≡ stepped_many plan.now walk lengths.old offsets.old }
{
    let mut ended = [flag(walk.ended)];
    let mut counters = walk.counters;
    let mut starts = walk.offsets;
    let blocks = step_many_into(
        plan,
        &mut ended,
        &mut counters,
        &mut starts,
        lengths,
        offsets,
    )?;
    Ok(Several {
        blocks,
        walk: walk_of(&ended, &counters, &starts),
    })
}

// MANY STEPS of a walk, whatever the values of plan and state.
pub fn step_many(
    plan: Plan,
    walk: Walk,
    lengths: &mut [u64],
    offsets: &mut [i64],
) -> Result<Several, Refusal>
    ensures { many_of result lengths.new offsets.new ≡ stepped_many plan walk lengths.old offsets.old }
{
    step_many_on(&LentPlan::try_from(&plan)?, walk, lengths, offsets)
}
