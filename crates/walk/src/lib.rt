// One step of a walk by value, on any plan and any state; and the same on a state that is lent.
#![tactic(auto)]

ghost use Rattle.std.specs.Prelude.{◌≡◌, false, Ok};
ghost use Rattle.strided.specs.Step.{stepped, left};
ghost use Rattle.strided.specs.Memory.{walk_of};
ghost use Rattle.walk.specs.Lent.{Taken, Answers};

use advance::{firsts, length_by, width_on};
use layout::LentPlan;
use onward::advance_on;
use states::reaches;
pub use states::{LentWalk, begin};
use strided::{Block, Plan, Refusal, Stepped, Walk};

pub mod arrays;
pub mod memory;
pub mod onward;

// The block at the counters, with the state at the next one. It checks nothing.
// Kept: apart from memory::block_into. What they do alike is three calls; the one by the other would fill arrays only to copy them again, and each
// copy of the counters is 76 instructions of the 1,880 of a step by value.
// The hint: compiled into `step_on`, it makes of the copy of the counters a call of memmove, a name that libparts.a would need from outside.
#[inline(never)]
fn block_at(plan: &LentPlan, counters: [u64; 64], offsets: [i64; 8]) -> Stepped
    requires { Taken plan.now (walk_of false counters offsets) }
    ensures { Ok result ≡ stepped plan.now (walk_of false counters offsets) }
{
    let mut c = counters;
    let mut o = offsets;
    let length = length_by(plan, width_on(plan, 0), c[0]);
    let strides = firsts(plan);
    let more = advance_on(plan, &mut c, &mut o);
    Stepped {
        block: Some(Block {
            counters,
            length,
            offsets,
            strides,
        }),
        walk: Walk {
            ended: !more,
            counters: c,
            offsets: o,
        },
    }
}

// Whether a step at the state hands out a block, and not the end: row 10, whatever the values.
pub fn answer_of(plan: &LentPlan, walk: &LentWalk) -> Result<bool, Refusal>
    ensures { Answers plan.now walk.now result }
{
    if reaches(plan, walk) {
        return Ok(!walk.ended);
    }
    Err(Refusal::State)
}

// One step on a plan that is lent. "A step after the last block answers "ended" again, state unchanged."
pub fn step_on(plan: &LentPlan, walk: Walk) -> Result<Stepped, Refusal>
    ensures { result ≡ stepped plan.now walk }
{
    if answer_of(plan, &LentWalk::from(&walk))? {
        return Ok(block_at(plan, walk.counters, walk.offsets));
    }
    Ok(Stepped { block: None, walk })
}

// ONE STEP of a walk, whatever the values of plan and state.
pub fn step(plan: Plan, walk: Walk) -> Result<Stepped, Refusal>
    ensures { result ≡ stepped plan walk }
{
    step_on(&LentPlan::try_from(&plan)?, walk)
}

// A walk lent by reference moves to its next block; where the step is refused it stays.
pub fn step_lent(plan: Plan, walk: &mut Walk) -> Result<Stepped, Refusal>
    ensures { (result ≡ stepped plan walk.old) × (walk.new ≡ left (stepped plan walk.old) walk.old) }
{
    let stepped = step(plan, *walk)?;
    *walk = stepped.walk;
    Ok(stepped)
}
