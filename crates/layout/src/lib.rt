// What a layout is refused for: rows 1 to 6 of the refusal table, with 24 among them where it is to be planned. A check hands out the
// `Layout` that it lets through. Beside it what all later crates read off a layout: the total, the reach, the lead, the purpose, and the
// number of a refusal.
#![tactic(auto)]

ghost use Rattle.std.specs.Prelude.{◌≡◌, [], ◌∷◌, length};
ghost use Rattle.strided.specs.Layout.{lead, stride_row};
ghost use Rattle.strided.specs.Refusals.{number, negated, refused_by, answered, row5, row6, count_rows, layout_refused, planning_refused};
ghost use Rattle.strided.specs.Memory.{purpose_of};
ghost use Rattle.layout.specs.Checked.{Checked};

use strided::{Machine, Purpose, Refusal};

pub mod along;
pub mod below;
pub mod lent;
mod near;
pub mod rows;
pub mod sizes;
pub mod slices;

pub use along::Along;
pub use below::{all_below, all_zero, first_below, within};
pub use lent::LentPlan;
pub use rows::{
    chosen_missing, machine_allowed, operands_wrong, rank_over, reach_over, strides_wrong,
    total_over,
};
pub use sizes::{has_zero, total_at_most, total_len};
pub use slices::{Layout, Row, Rows, lay_into};

// The number of a refusal in document 01's table.
// Kept: a function. An `impl From<Refusal> for u64` could stand in strided alone, which holds types and definitions and no code.
pub fn number(refusal: Refusal) -> u64
    ensures { result ≡ number refusal }
{
    refusal as u64
}

// That number negated: the answer of an entry that answers with one signed number.
pub fn negated(refusal: Refusal) -> i64
    ensures { result ≡ negated refusal }
{
    -(number(refusal) as i64)
}

// The chosen operand, or operand 0 if none.
pub fn lead(purpose: Purpose) -> u64
    ensures { result ≡ lead purpose }
{
    match purpose {
        Purpose::Pointwise => 0,
        Purpose::PointwiseInto(k) | Purpose::Fold(k) => k,
    }
}

// The purpose that two numbers tell: 0 for pointwise with no chosen operand, 1 for pointwise into the chosen one, any other for a fold by it.
pub fn purpose_of(kind: u64, chosen: u64) -> Purpose
    ensures { result ≡ purpose_of kind chosen }
{
    match kind {
        0 => Purpose::Pointwise,
        1 => Purpose::PointwiseInto(chosen),
        _ => Purpose::Fold(chosen),
    }
}

// Rows 1 to 4, the least number first. Row 3 multiplies counts that rows 1 and 2 let through.
pub fn check_counts<'a>(
    extents: &'a [u64],
    sizes: &'a [u64],
    strides: &'a [i64],
    purpose: Purpose,
) -> Result<Layout<'a>, Refusal>
    ensures { Checked (refused_by (count_rows extents.now sizes.now strides.now purpose)) extents.now sizes.now strides.now result }
{
    let rank = extents.len();
    let operands = sizes.len();
    if rank_over(rank) {
        return Err(Refusal::Rank);
    }
    if operands_wrong(operands) {
        return Err(Refusal::Operands);
    }
    if strides_wrong(rank, operands, strides) {
        return Err(Refusal::StrideCount);
    }
    if chosen_missing(operands, purpose) {
        return Err(Refusal::Chosen);
    }
    Ok(Layout {
        extents,
        strides,
        operands,
    })
}

// Rows 5 and 6. Row 6 reads the strides that row 3 counted.
fn check_spans(layout: Layout) -> Result<(), Refusal>
    ensures { let l = layout.entry in
        result ≡ answered (refused_by (row5 l.extents.now ∷ row6 l.extents.now l.operands (stride_row l.strides.now (length l.extents.now)) ∷ [])) }
{
    if total_over(layout.extents) {
        return Err(Refusal::Total);
    }
    if near::small_layout(layout.extents, layout.strides) {
        return Ok(());
    }
    if reach_over(layout.extents, layout.rows()) {
        return Err(Refusal::Reach);
    }
    Ok(())
}

// Rows 1 to 6, the least number first: what index finding refuses a layout for, and the text.
pub fn check_layout<'a>(
    extents: &'a [u64],
    sizes: &'a [u64],
    strides: &'a [i64],
    purpose: Purpose,
) -> Result<Layout<'a>, Refusal>
    ensures { Checked (layout_refused extents.now sizes.now strides.now purpose) extents.now sizes.now strides.now result }
{
    let layout = check_counts(extents, sizes, strides, purpose)?;
    check_spans(layout)?;
    Ok(layout)
}

// Rows 1 to 4, 24, 5, 6: what planning refuses.
pub fn check_planning<'a>(
    extents: &'a [u64],
    sizes: &'a [u64],
    strides: &'a [i64],
    purpose: Purpose,
    machine: Machine,
) -> Result<Layout<'a>, Refusal>
    ensures { Checked (planning_refused machine extents.now sizes.now strides.now purpose) extents.now sizes.now strides.now result }
{
    let layout = check_counts(extents, sizes, strides, purpose)?;
    if !machine_allowed(machine) {
        return Err(Refusal::Record);
    }
    check_spans(layout)?;
    Ok(layout)
}
