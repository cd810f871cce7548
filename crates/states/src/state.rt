// Row 10, "step on a state no begun walk reaches", as a test of the state's arrays.
ghost use Rattle.std.specs.Prelude.{◌≡◌, take};
ghost use Rattle.strided.specs.Step.{plan_cut_axes, on_startb, tidy};
ghost use Rattle.layout.specs.Lent.{Whole};
ghost use Rattle.states.specs.Lent.{WholeWalk};
ghost use Rattle.states.specs.Reaches.{standing, may_start, reaches};

use super::lent::LentWalk;
use super::near::all_near;
use super::starts::starts_leave;
use layout::{LentPlan, all_zero, total_over, within};

// Whether the counter of axis 0 is the start of a tile.
fn on_start(plan: &LentPlan, c: &[u64; 64]) -> bool
    ensures { result ≡ on_startb (plan_cut_axes plan.now) (take plan.now.rank c.now) }
{
    plan.rank == 0 || c[0].is_multiple_of(advance::effective(plan.extents[0], plan.blocks[0]))
}

// Whether the counters of a walk may stand where they do.
fn stands(plan: &LentPlan, walk: &LentWalk) -> bool
    ensures { result ≡ standing walk.now.ended plan.now walk.now.counters }
{
    let c = walk.counters;
    if walk.ended {
        return all_zero(&c[..plan.rank]);
    }
    within(plan.axes(), &c[..plan.rank]) && on_start(plan, c)
}

// Whether rows 5 and 6 let a walk begin.
pub fn may_start(plan: &LentPlan) -> bool
    ensures { result ≡ may_start plan.now }
{
    !total_over(plan.axes()) && !plan.reach_over()
}

// Whether the places behind the counts are 0.
fn tidy(plan: &LentPlan, walk: &LentWalk) -> bool
    ensures { result ≡ tidy plan.now walk.now }
{
    let c = walk.counters;
    let o = walk.offsets;
    all_zero(&c[plan.rank..]) && all_zero(&o[plan.operands..])
}

// Whether a begun walk of the plan reaches the state. Where nothing is large rows 6 and 9 are not asked. Who asks learns with it what is known of
// a plan and of a walk that are lent.
pub fn reaches(plan: &LentPlan, walk: &LentWalk) -> bool
    ensures told { result ≡ reaches plan.now walk.now }
    ensures plan_whole { Whole plan.now }
    ensures walk_whole { WholeWalk walk.now }
{
    let c = walk.counters;
    let o = walk.offsets;
    let counters = &c[..plan.rank];
    if !tidy(plan, walk) || !stands(plan, walk) {
        return false;
    }
    if all_near(plan, o) {
        return !total_over(plan.axes());
    }
    may_start(plan) && !starts_leave(plan, counters, o)
}
