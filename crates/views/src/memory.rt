// A visit in lent arrays, as C functions have it: one step of the state that lies in them, with its record. Neither the plan nor the state is
// copied, and nothing is written before every row has been judged.
ghost use Rattle.std.specs.Prelude.{◌≡◌, false, ◌^◌, ◌<◌};
ghost use Rattle.strided.specs.Layout.{total};
ghost use Rattle.strided.specs.Step.{stepped};
ghost use Rattle.strided.specs.Memory.{walk_of, walk_at, walk_in, step_at, index_at};
ghost use Rattle.finding.specs.Mapped.{found_original};
ghost use Rattle.walk.specs.Lent.{Taken};
ghost use Rattle.views.specs.Visits.{seen_by, visited};
ghost use Rattle.views.specs.Memory.{visit_at, VisitLeaves};

use crate::check_visit;
use crate::number::number_of;
use finding::original_of_into;
use layout::{Layout, LentPlan};
use strided::{Purpose, Refusal};
use walk::memory::block_into;
use walk::{LentWalk, answer_of};

// Kept: in found_into and visit_into what a visit moves and what it hands out, array by array, as C lends them one by one.

// The block at the counters with its record, and the state at the next one: row 11 alone is judged.
fn found_into(
    layout: Layout,
    purpose: Purpose,
    plan: &LentPlan,
    ended: &mut [u64; 1],
    counters: &mut [u64; 64],
    offsets: &mut [i64; 8],
    number: &mut [u64; 1],
    block_counters: &mut [u64; 64],
    length: &mut [u64; 1],
    block_offsets: &mut [i64; 8],
    block_strides: &mut [i64; 8],
    count: &mut [usize; 1],
    index: &mut [u64; 64],
) -> Result<bool, Refusal>
    requires total { total layout.extents.now < 2 ^ 64 }
    requires state { Taken plan.now (walk_of false counters.old offsets.old) }
    ensures { let w = walk_at ended.old counters.old offsets.old in
        let w' = walk_at ended.new counters.new offsets.new in
        let s = step_at w block_counters.old length.old block_offsets.old block_strides.old in
        let s' = step_at w' block_counters.new length.new block_offsets.new block_strides.new in
        let old = visit_at s number.old (index_at count.old index.old) in
        let new = visit_at s' number.new (index_at count.new index.new) in
        let tell = found_original layout.entry.extents.now layout.entry.operands layout.entry.strides.now purpose in
        VisitLeaves (seen_by tell plan.now (stepped plan.now (walk_of false counters.old offsets.old))) old new result }
{
    original_of_into(layout, purpose, &counters[..plan.rank], count, index)?;
    *number = [number_of(plan, counters)];
    block_into(
        plan,
        ended,
        counters,
        offsets,
        block_counters,
        length,
        block_offsets,
        block_strides,
    );
    Ok(true)
}

// A VISIT in the lent arrays: rows 1 to 6, then 10 or the end, then 11. It says whether there is a block.
pub fn visit_into(
    extents: &[u64],
    sizes: &[u64],
    strides: &[i64],
    purpose: Purpose,
    plan: &LentPlan,
    ended: &mut [u64; 1],
    counters: &mut [u64; 64],
    offsets: &mut [i64; 8],
    number: &mut [u64; 1],
    block_counters: &mut [u64; 64],
    length: &mut [u64; 1],
    block_offsets: &mut [i64; 8],
    block_strides: &mut [i64; 8],
    count: &mut [usize; 1],
    index: &mut [u64; 64],
) -> Result<bool, Refusal>
    ensures { let w = walk_at ended.old counters.old offsets.old in
        let w' = walk_at ended.new counters.new offsets.new in
        let s = step_at w block_counters.old length.old block_offsets.old block_strides.old in
        let s' = step_at w' block_counters.new length.new block_offsets.new block_strides.new in
        let old = visit_at s number.old (index_at count.old index.old) in
        let new = visit_at s' number.new (index_at count.new index.new) in
        VisitLeaves (visited extents.now sizes.now strides.now purpose plan.now (walk_in w)) old new result }
{
    let layout = check_visit(extents, sizes, strides, purpose, plan)?;
    let walk = LentWalk {
        ended: ended[0] != 0,
        counters: &*counters,
        offsets: &*offsets,
    };
    if answer_of(plan, &walk)? {
        return found_into(
            layout,
            purpose,
            plan,
            ended,
            counters,
            offsets,
            number,
            block_counters,
            length,
            block_offsets,
            block_strides,
            count,
            index,
        );
    }
    Ok(false)
}
