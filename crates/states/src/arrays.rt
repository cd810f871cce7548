// A walk's beginning on arrays. A plan's five may hold any numbers, for rows 1 and 2 come first; what is told of slices is told where the
// clauses hold.
ghost use Rattle.std.specs.Prelude.{◌≡◌, ◌*◌, ◌≤◌, length, take, not, ◌&&◌};
ghost use Rattle.strided.specs.Layout.{has_zero};
ghost use Rattle.strided.specs.Refusals.{row5, row6};
ghost use Rattle.strided.specs.Begin.{begun_at};
ghost use Rattle.strided.specs.Memory.{plan_of};
ghost use Rattle.layout.specs.Rows.{row_at};
ghost use Rattle.states.specs.Arrays.{some_leave, Begins};

use super::starts;
use layout::{LentPlan, Rows, has_zero, reach_over, total_over};
use strided::{Refusal, Walk};

// A walk's beginning. Kept: the counts and the arrays one by one, as C lends a plan.
pub fn begin_on<'a>(
    rank: usize,
    operands: usize,
    extents: &'a [u64; 64],
    blocks: &'a [u64; 64],
    strides: &'a [i64; 512],
    starts: &[i64],
) -> Result<Walk, Refusal>
    ensures { result ≡ begun_at (plan_of rank operands extents.now blocks.now strides.now) starts.now }
{
    crate::begin_on(
        &LentPlan::of(rank, operands, extents, blocks, strides)?,
        starts,
    )
}

// "Zero extent: no block", of the first `rank` extents.
pub fn no_block(rank: usize, e: &[u64]) -> bool
    requires { rank ≤ length e.now }
    ensures { result ≡ has_zero (take rank e.now) }
{
    has_zero(&e[..rank])
}

// Whether rows 5 and 6 let a walk begin, on at most 64 extents and any number of operands: the strides of operand k stand from k * 64 on.
pub fn may_start(extents: &[u64], strides: &[i64], operands: usize) -> bool
    requires { (length extents.now ≤ 64) × (operands * 64 ≤ length strides.now) }
    ensures { result ≡ (not (row5 extents.now).applies && not (row6 extents.now operands (row_at extents.now strides.now 64)).applies) }
{
    let rows = Rows {
        strides,
        pitch: 64,
        operands,
    };
    !total_over(extents) && !reach_over(extents, rows)
}

// Row 9 of slices, told from the offsets at the counters, for any number of operands: the strides of operand k stand from k * 64 on.
pub fn starts_leave(
    extents: &[u64],
    strides: &[i64],
    counters: &[u64],
    offsets: &[i64],
    operands: usize,
) -> bool
    requires { Begins extents.now strides.now counters.now offsets.now operands }
    ensures { result ≡ some_leave extents.now strides.now counters.now offsets.now operands }
{
    !has_zero(extents) && starts::some_leave(extents, strides, counters, offsets, operands)
}
