// A single step to the next block. It keeps no block sizes and no tile starts beside the plan, as a walk of many blocks does
// (crate advance): they are worked out for the axes that it looks at, mostly one or two.
ghost use Rattle.std.specs.Prelude.{◌≡◌, ◌≤◌, ◌<◌, get_or};
ghost use Rattle.advance.specs.Axis.{widths};
ghost use Rattle.advance.specs.Carry.{PlaceOn, Roomy};
ghost use Rattle.walk.specs.Onward.{lone, inner_of, CarriesOn, AdvancesOn};

use advance::{Place, shift, tile_start, width_on};
use layout::LentPlan;

// Where the counters stand on an axis.
fn place_on(plan: &LentPlan, axis: usize, c: &[u64; 64]) -> Place
    requires axis_bound { (axis < 64) × (axis < plan.now.rank) }
    requires within { get_or c.now axis 0 < get_or plan.now.extents axis 0 }
    ensures { PlaceOn plan.now (widths plan.now) axis c.now result }
{
    let width = width_on(plan, axis);
    let at = c[axis];
    Place {
        extent: plan.extents[axis],
        width,
        start: tile_start(width, at),
        at,
    }
}

// A carry along the axes from `first` to `last`, inside a tile or from tile to tile. Says whether an axis went ahead.
// Kept: `inside` and no closure that tells the goal, as in advance's carry; and counters and offsets one by one, here and in advance_on, as C
// lends them: there are no tile starts that would make them a state.
// Kept: a loop of its own beside advance's carry. One for both would ask a trait where a state stands on an axis and how it goes to a goal; its
// clauses, and the two impls with theirs, would be longer than this loop.
// The hint: compiled as a function of its own for one of the two calls it takes 30 instructions more a step, of 1,880 by value and 760 lent.
#[inline(always)]
fn carry_on(
    inside: bool,
    first: usize,
    last: usize,
    plan: &LentPlan,
    c: &mut [u64; 64],
    o: &mut [i64; 8],
) -> bool
    requires roomy { Roomy plan.now (lone c.old o.old) }
    requires last_le_rank { last ≤ plan.now.rank }
    ensures { CarriesOn inside first last plan.now c.old o.old result c.new o.new }
{
    for i in first..last {
        let place = place_on(plan, i, c);
        let goal = place.goal(inside);
        shift(plan, i, place.at, goal.to, &mut *o);
        c[i] = goal.to;
        if goal.more {
            return true;
        }
    }
    false
}

// The axes that a carry inside a tile has to look at: from rank 9 on only axis 0 is cut, and none is left.
fn inner_of(rank: usize) -> usize
    ensures { result ≡ inner_of rank }
{
    if 8 < rank {
        return 1;
    }
    rank
}

// Moves the counters and the offsets to the next block. Says whether there is one; if not, both are back at the start.
pub fn advance_on(plan: &LentPlan, c: &mut [u64; 64], o: &mut [i64; 8]) -> bool
    requires { Roomy plan.now (lone c.old o.old) }
    ensures { AdvancesOn plan.now c.old o.old result c.new o.new }
{
    let rank = plan.rank;
    let inner = inner_of(rank);
    carry_on(true, 1, inner, plan, &mut *c, &mut *o) || carry_on(false, 0, rank, plan, c, o)
}
