// SUMS FOR THE JOURNALS: sum, least, greatest and counts of an operand's f64 cells, in the order of its F plan. It is checked, planned once and
// walked on arrays.
#![tactic(auto)]

ghost use Rattle.std.specs.Prelude.{◌≡◌, None};
ghost use Rattle.strided.specs.Refusals.{planning_refused};
ghost use Rattle.summary.specs.Visits.{cell_sizes, ordering};
ghost use Rattle.summary.specs.Rows.{summarized};

use kernel::{Aim, plan_into};
use layout::{Layout, LentPlan, check_planning};
use span::cell_outside;
use states::begin_on;
use strided::{Machine, Purpose, Refusal};
use visits::summary_on;

pub mod cell;
pub mod run;
pub mod visits;

pub use cell::Summary;

// "one operand of f64 cells (size 8)".
pub const CELL_SIZE: u64 = 8;

// A layout that planning does not refuse: rows 9 and 22, and the summary. Where every cell lies in the slice no offset leaves 64 bits, so row 9
// is asked only where one does not. It is told by the plan, since its offsets are the layout's.
fn summarize_served(
    layout: Layout,
    machine: Machine,
    start: i64,
    cells: &[f64],
) -> Result<Summary, Refusal>
    requires one { layout.operands ≡ 1 }
    requires passed { planning_refused machine layout.extents.now cell_sizes layout.strides.now ordering ≡ None }
    ensures { result ≡ summarized machine layout.entry.extents.now layout.entry.strides.now start cells.now }
{
    let sizes = [CELL_SIZE];
    let mut es = [0u64; 64];
    let mut blocks = [0u64; 64];
    let mut table = [0i64; 512];
    let aim = Aim {
        purpose: Purpose::Fold(0),
        machine,
    };
    let rank = plan_into(aim, layout, &sizes, &mut es, &mut blocks, &mut table);
    let plan = LentPlan {
        rank,
        operands: 1,
        extents: &es,
        blocks: &blocks,
        strides: &table,
    };
    if cell_outside(layout.extents, layout.strides, start, cells.len() as u64) {
        begin_on(&plan, &[start])?;
        return Err(Refusal::Slice);
    }
    Ok(summary_on(&plan, start, cells))
}

// THE SUMMARY of an operand's cells, whatever the numbers.
pub fn summarize<'a>(
    extents: &'a [u64],
    strides: &'a [i64],
    machine: Machine,
    start: i64,
    cells: &[f64],
) -> Result<Summary, Refusal>
    ensures { result ≡ summarized machine extents.now strides.now start cells.now }
{
    let sizes = [CELL_SIZE];
    let layout = check_planning(extents, &sizes, strides, Purpose::Fold(0), machine)?;
    summarize_served(layout, machine, start, cells)
}
