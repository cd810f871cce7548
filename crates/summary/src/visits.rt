// All cells of a plan of one operand, met in the walk's order: stretch by stretch, block by block, cell by cell.
ghost use Rattle.std.specs.Prelude.{◌≡◌};
ghost use Rattle.summary.specs.Sums.{nothing_met};
ghost use Rattle.summary.specs.Visits.{visits_of};
ghost use Rattle.summary.specs.Ahead.{met, Summable};

use super::cell::{Summary, nothing_met};
use super::run::{Rows, with_blocks};
use layout::LentPlan;
use states::no_block;
use walker::{ALL, Course};

// THE SUMMARY of the cells that a plan's walk meets from `start` on. With a zero extent there is no block, and how far a stretch would move
// need not fit.
pub fn summary_on(plan: &LentPlan, start: i64, cells: &[f64]) -> Summary
    requires { Summable plan.now start cells.now }
    ensures { result ≡ met cells.now nothing_met (visits_of plan.now start) }
{
    if no_block(plan) {
        return nothing_met();
    }
    let course = Course::of(plan);
    let d = course.moves();
    let by = d[0];
    let stride = plan.strides[0];
    let mut offsets = [0i64; 8];
    offsets[0] = start;
    let mut at = course.state_at([0u64; 64], offsets);
    let mut first = [0i64; 8];
    let mut more = true;
    let mut sum = nothing_met();
    while more {
        let x = course.take_stretch(ALL, &mut at, &mut first);
        let rows = Rows {
            first: first[0],
            by,
            count: x.count,
            stride,
            n: x.length,
        };
        sum = with_blocks(sum, cells, rows);
        more = x.more;
    }
    sum
}
