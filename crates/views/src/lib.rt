// Two readers of a block: a visit is a step with its record, from which an engineer's view and a student's are taken.
#![tactic(auto)]

ghost use Rattle.std.specs.Prelude.{◌≡◌, ◌∷◌};
ghost use Rattle.strided.specs.Refusals.{refused_by, served_unless, row1};
ghost use Rattle.strided.specs.Step.{step_rows};
ghost use Rattle.strided.specs.Memory.{plan_of};
ghost use Rattle.layout.specs.Checked.{Checked};
ghost use Rattle.views.specs.Visits.{visit_refused, visited};

use layout::{Layout, LentPlan, check_layout, rank_over};
use memory::visit_into;
pub use readers::{engineer_view, student_view};
use strided::{Block, Plan, Purpose, Refusal, Told, Walk};
use walk::memory::{flag, walk_of};

pub mod arrays;
pub mod memory;
pub mod number;
pub mod readers;

// The record of a visit: the block's number, the block as a step hands it out, and the original index of its first cell.
#[derive(Clone, Copy)]
pub struct Visit {
    pub number: u64,
    pub block: Block,
    pub first: Told,
}

// What a student sees of it: number, length, and the original index of the first cell. There is no offset, no stride and no counter.
#[derive(Clone, Copy)]
pub struct Student {
    pub number: u64,
    pub length: u64,
    pub first: Told,
}

// What a visit hands out: the record, or none where the walk has ended, and the state to hand to the next visit.
#[derive(Clone, Copy)]
pub struct Visited {
    pub visit: Option<Visit>,
    pub walk: Walk,
}

// Kept: the counts beside the arrays, as C lends a plan. What is handed on is a LentPlan.

// The plan of a visit, lent. Row 1 of the layout is asked before row 2 of the plan: "the least number wins" over both.
pub fn lend<'a>(
    axes: usize,
    rank: usize,
    operands: usize,
    extents: &'a [u64; 64],
    blocks: &'a [u64; 64],
    strides: &'a [i64; 512],
) -> Result<LentPlan<'a>, Refusal>
    ensures { let p = plan_of rank operands extents.now blocks.now strides.now in
        result ≡ served_unless (refused_by (row1 axes ∷ step_rows p)) p }
{
    if rank_over(axes) {
        return Err(Refusal::Rank);
    }
    LentPlan::of(rank, operands, extents, blocks, strides)
}

// The layout, or what a visit is refused for before the state is looked at: rows 1 and 2 of the layout and of the plan, then 3 to 6 of the
// layout. The plan's own have let it through where it was lent, and are not asked again.
pub fn check_visit<'a>(
    extents: &'a [u64],
    sizes: &'a [u64],
    strides: &'a [i64],
    purpose: Purpose,
    plan: &LentPlan,
) -> Result<Layout<'a>, Refusal>
    ensures { Checked (visit_refused extents.now sizes.now strides.now purpose plan.now.rank plan.now.operands) extents.now sizes.now strides.now result }
{
    // A look at a field, by which the proof has what is known of a plan that is lent.
    let _ = &plan.rank;
    check_layout(extents, sizes, strides, purpose)
}

// A visit on a plan that is lent: the one in lent arrays, on arrays of its own.
pub fn visit_on(
    extents: &[u64],
    sizes: &[u64],
    strides: &[i64],
    purpose: Purpose,
    plan: &LentPlan,
    walk: Walk,
) -> Result<Visited, Refusal>
    ensures { result ≡ visited extents.now sizes.now strides.now purpose plan.now walk }
{
    // A look at a field, by which the proof has what is known of a plan that is lent.
    let _ = &plan.rank;
    let mut ended = [flag(walk.ended)];
    let mut next = walk.counters;
    let mut starts = walk.offsets;
    let mut number = [0u64; 1];
    let mut counters = [0u64; 64];
    let mut length = [0u64; 1];
    let mut offsets = [0i64; 8];
    let mut steps = [0i64; 8];
    let mut count = [0usize; 1];
    let mut index = [0u64; 64];
    let some = visit_into(
        extents,
        sizes,
        strides,
        purpose,
        plan,
        &mut ended,
        &mut next,
        &mut starts,
        &mut number,
        &mut counters,
        &mut length,
        &mut offsets,
        &mut steps,
        &mut count,
        &mut index,
    )?;
    if !some {
        return Ok(Visited { visit: None, walk });
    }
    Ok(Visited {
        visit: Some(Visit {
            number: number[0],
            block: Block {
                counters,
                length: length[0],
                offsets,
                strides: steps,
            },
            first: Told {
                count: count[0],
                index,
            },
        }),
        walk: walk_of(&ended, &next, &starts),
    })
}

// A VISIT, whatever the values of layout, plan and state: rows 1 to 6, then 10 or the end, then 11.
pub fn next_visit(
    extents: &[u64],
    sizes: &[u64],
    strides: &[i64],
    purpose: Purpose,
    plan: Plan,
    walk: Walk,
) -> Result<Visited, Refusal>
    ensures { result ≡ visited extents.now sizes.now strides.now purpose plan walk }
{
    let lent = lend(
        extents.len(),
        plan.rank,
        plan.operands,
        &plan.extents,
        &plan.blocks,
        &plan.strides,
    )?;
    visit_on(extents, sizes, strides, purpose, &lent, walk)
}
