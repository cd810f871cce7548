// A walk's beginning (rows 1, 2, 5, 6, 8, 9), and the test for row 10: whether a begun walk of the plan reaches a state.
#![tactic(auto)]

ghost use Rattle.std.specs.Prelude.{◌≡◌, ◌≤◌, length, pos};
ghost use Rattle.strided.specs.Base.{padded};
ghost use Rattle.strided.specs.Layout.{has_zero};
ghost use Rattle.strided.specs.Refusals.{answered};
ghost use Rattle.strided.specs.Begin.{plan_extents, begin_refused, begun_at};

use layout::{LentPlan, has_zero, total_over};
use strided::{Plan, Refusal, Walk};

pub mod arrays;
pub mod lent;
mod near;
pub mod starts;
pub mod state;

pub use lent::LentWalk;
use starts::starts_leave;
pub use state::reaches;

// The starts as a walk's offsets.
// Kept: apart from layout's `lay_into`, which lays unsigned numbers into an array that is lent. What the two share is `copy_from_slice`.
fn offsets_of(starts: &[i64]) -> [i64; 8]
    requires { length starts.now ≤ 8 }
    ensures { result ≡ padded 8 (pos 0) starts.now }
{
    let mut offsets = [0i64; 8];
    offsets[..starts.len()].copy_from_slice(starts);
    offsets
}

// What a beginning is refused for, once the plan is lent and so rows 1 and 2 have let it through: rows 5, 6, 8 and 9, the least number first.
// Row 9 is asked at the counters 0.
fn check_begin(plan: &LentPlan, starts: &[i64]) -> Result<(), Refusal>
    ensures { result ≡ answered (begin_refused plan.now starts.now) }
{
    let rank = plan.rank;
    if total_over(plan.axes()) {
        return Err(Refusal::Total);
    }
    if plan.reach_over() {
        return Err(Refusal::Reach);
    }
    if starts.len() != plan.operands {
        return Err(Refusal::StartCount);
    }
    let counters = [0u64; 64];
    if starts_leave(plan, &counters[..rank], starts) {
        return Err(Refusal::Offsets);
    }
    Ok(())
}

// "Zero extent: no block."
pub fn no_block(plan: &LentPlan) -> bool
    ensures { result ≡ has_zero (plan_extents plan.now) }
{
    has_zero(plan.axes())
}

// A walk's beginning on a plan that is lent, whatever its values: all counters 0, each operand at its start; with a zero extent it has ended
// at once. The block sizes have no part in it.
pub fn begin_on(plan: &LentPlan, starts: &[i64]) -> Result<Walk, Refusal>
    ensures { result ≡ begun_at plan.now starts.now }
{
    check_begin(plan, starts)?;
    Ok(Walk {
        ended: no_block(plan),
        counters: [0u64; 64],
        offsets: offsets_of(starts),
    })
}

// A WALK BEGINS on a plan, whatever its values.
pub fn begin(plan: Plan, starts: &[i64]) -> Result<Walk, Refusal>
    ensures { result ≡ begun_at plan starts.now }
{
    begin_on(&LentPlan::try_from(&plan)?, starts)
}
