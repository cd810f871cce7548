// A visit on a plan's five arrays, whatever their numbers: rows 1 and 2, of the layout and of the plan, come first. And what it is made of, which
// asks no more than it needs.
ghost use Rattle.std.specs.Prelude.{◌≡◌, [], take};
ghost use Rattle.strided.specs.Walk.{cut_axes};
ghost use Rattle.strided.specs.Memory.{plan_of, walk_at, walk_in, step_at, index_at};
ghost use Rattle.layout.specs.Checked.{Checked};
ghost use Rattle.views.specs.Number.{block_number};
ghost use Rattle.views.specs.Tally.{Countable};
ghost use Rattle.views.specs.Visits.{visit_refused, visited};
ghost use Rattle.views.specs.Memory.{visit_at, VisitLeaves};

use crate::number::{Tally, number_first, tally_axis};
use crate::{lend, memory};
use advance::arrays::width_of;
use layout::{Layout, check_layout, operands_wrong, rank_over};
use strided::{Purpose, Refusal};

// The layout, or what a visit is refused for before the state is looked at, told from the plan's counts: rows 1 and 2 of the layout and of the
// plan, then 3 to 6 of the layout.
pub fn check_visit<'a>(
    extents: &'a [u64],
    sizes: &'a [u64],
    strides: &'a [i64],
    purpose: Purpose,
    rank: usize,
    operands: usize,
) -> Result<Layout<'a>, Refusal>
    ensures { Checked (visit_refused extents.now sizes.now strides.now purpose rank operands) extents.now sizes.now strides.now result }
{
    if rank_over(extents.len()) {
        return Err(Refusal::Rank);
    }
    if rank_over(rank) {
        return Err(Refusal::Rank);
    }
    if operands_wrong(sizes.len()) {
        return Err(Refusal::Operands);
    }
    if operands_wrong(operands) {
        return Err(Refusal::Operands);
    }
    check_layout(extents, sizes, strides, purpose)
}

// A visit in the lent arrays; it says whether there is a block. Where it is refused they are as they were. Kept: the counts and the arrays one
// by one, as C lends a plan, a state and a record.
pub fn visit_into<'a>(
    extents: &[u64],
    sizes: &[u64],
    strides: &[i64],
    purpose: Purpose,
    rank: usize,
    operands: usize,
    plan_extents: &'a [u64; 64],
    blocks: &'a [u64; 64],
    plan_strides: &'a [i64; 512],
    ended: &mut [u64; 1],
    counters: &mut [u64; 64],
    offsets: &mut [i64; 8],
    number: &mut [u64; 1],
    block_counters: &mut [u64; 64],
    length: &mut [u64; 1],
    block_offsets: &mut [i64; 8],
    block_strides: &mut [i64; 8],
    count: &mut [usize; 1],
    index: &mut [u64; 64],
) -> Result<bool, Refusal>
    ensures { let p = plan_of rank operands plan_extents.now blocks.now plan_strides.now in
        let w = walk_at ended.old counters.old offsets.old in
        let w' = walk_at ended.new counters.new offsets.new in
        let s = step_at w block_counters.old length.old block_offsets.old block_strides.old in
        let s' = step_at w' block_counters.new length.new block_offsets.new block_strides.new in
        let old = visit_at s number.old (index_at count.old index.old) in
        let new = visit_at s' number.new (index_at count.new index.new) in
        VisitLeaves (visited extents.now sizes.now strides.now purpose p (walk_in w)) old new result }
{
    let plan = lend(
        extents.len(),
        rank,
        operands,
        plan_extents,
        blocks,
        plan_strides,
    )?;
    memory::visit_into(
        extents,
        sizes,
        strides,
        purpose,
        &plan,
        ended,
        counters,
        offsets,
        number,
        block_counters,
        length,
        block_offsets,
        block_strides,
        count,
        index,
    )
}

// How many blocks come before the one at the counters. Neither the operands nor their strides have a part in it.
pub fn number_of<'a>(
    rank: usize,
    extents: &'a [u64; 64],
    blocks: &'a [u64; 64],
    counters: &'a [u64; 64],
) -> u64
    requires { Countable (plan_of rank 0 extents.now blocks.now []) counters.now }
    ensures { result ≡ block_number (cut_axes (take rank extents.now) (take rank blocks.now)) (take rank counters.now) }
{
    if rank == 0 {
        return 0;
    }
    let mut t = Tally {
        before: 0,
        size: 1,
        place: 0,
    };
    for i in (1..rank).rev() {
        let width = width_of(rank, i, extents[i], blocks[i]);
        t = tally_axis(extents[i], width, counters[i], t);
    }
    let width = width_of(rank, 0, extents[0], blocks[0]);
    number_first(extents[0], width, counters[0], t)
}
