// The repeat mark of an operand: whether two indices of a layout share an offset. It reads the extents and one operand's strides.
#![tactic(auto)]

ghost use Rattle.std.specs.Prelude.{◌≡◌};
ghost use Rattle.strided.specs.Mark.{mark_of, marked};

use distinct::{Operand, repeats};
use layout::{Rows, has_zero, rank_over, reach_over, strides_wrong, total_at_most, total_over};
use quick::{rising, some_stays};
use strided::{Mark, Refusal};

mod quick;

// The mark of an operand with an index. The tests come in the order of what they cost: those that are quick are right at every total, so up
// to 4,096 cells they only spare the exact one.
fn mark_of(operand: Operand) -> Mark
    ensures { result ≡ mark_of operand.entry.extents.now operand.entry.strides.now }
{
    if some_stays(operand) {
        return Mark::Yes;
    }
    if rising(operand) {
        return Mark::No;
    }
    if total_at_most(operand.extents, 4096) {
        if repeats(operand) {
            return Mark::Yes;
        }
        return Mark::No;
    }
    Mark::Undecided
}

// The repeat mark: rows 1, 3, which reads one operand, 5 and 6. No two indices share an offset where there is none.
pub fn repeat_mark<'a>(extents: &'a [u64], strides: &'a [i64]) -> Result<Mark, Refusal>
    ensures { result ≡ marked extents.now strides.now }
{
    let rank = extents.len();
    if rank_over(rank) {
        return Err(Refusal::Rank);
    }
    if strides_wrong(rank, 1, strides) {
        return Err(Refusal::StrideCount);
    }
    if total_over(extents) {
        return Err(Refusal::Total);
    }
    let rows = Rows {
        strides,
        pitch: rank,
        operands: 1,
    };
    if reach_over(extents, rows) {
        return Err(Refusal::Reach);
    }
    if has_zero(extents) {
        return Ok(Mark::No);
    }
    Ok(mark_of(Operand { extents, strides }))
}
