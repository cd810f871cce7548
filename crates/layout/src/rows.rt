// Rows 1 to 6 and 24 of the refusal table, each as a test. Rows 5 and 6 serve a walk's beginning too, so the operands' strides may stand further
// apart than the rank.
ghost use Rattle.std.specs.Prelude.{◌≡◌, ◌+◌, ◌*◌, ◌%◌, ◌^◌, ◌≤◌, ◌<◌, min, length, leb, eqb, ◌&&◌};
ghost use Rattle.strided.specs.Machine.{line_allowed, allowed};
ghost use Rattle.strided.specs.Base.{some_of};
ghost use Rattle.strided.specs.Layout.{reach};
ghost use Rattle.strided.specs.Refusals.{row1, row2, row3, row4, row5, row6};
ghost use Rattle.layout.specs.Rows.{row_at, far_at};

use super::sizes::{has_zero, reach_of, total_len};
use super::slices::Rows;
use strided::{MAX_OPERANDS, MAX_RANK, Machine, Purpose};

// Row 1.
pub fn rank_over(rank: usize) -> bool
    ensures { result ≡ (row1 rank).applies }
{
    MAX_RANK < rank
}

// Row 2.
pub fn operands_wrong(operands: usize) -> bool
    ensures { result ≡ (row2 operands).applies }
{
    operands == 0 || MAX_OPERANDS < operands
}

// Row 3.
pub fn strides_wrong(rank: usize, operands: usize, strides: &[i64]) -> bool
    requires { (rank ≤ 64) × (operands ≤ 8) }
    ensures { result ≡ (row3 rank operands strides.now).applies }
{
    strides.len() != rank * operands
}

// Row 4.
pub fn chosen_missing(operands: usize, purpose: Purpose) -> bool
    ensures { result ≡ (row4 operands purpose).applies }
{
    match purpose {
        Purpose::Pointwise => false,
        Purpose::PointwiseInto(k) | Purpose::Fold(k) => operands as u64 <= k,
    }
}

// A line of the machine: a power of two from 32 to 256.
fn line_allowed(line: u64) -> bool
    ensures { result ≡ line_allowed line }
{
    matches!(line, 32 | 64 | 128 | 256)
}

// A way of the machine: whole lines, from one up to the cache.
fn way_allowed(line: u64, cache: u64, way: u64) -> bool
    ensures { result ≡ eqb (way % line) 0 && (leb line way && leb way cache) }
{
    way.is_multiple_of(line) && (line..=cache).contains(&way)
}

// Row 24, whether it does not apply.
pub fn machine_allowed(machine: Machine) -> bool
    ensures { result ≡ allowed machine }
{
    line_allowed(machine.line)
        && (4096..=1048576).contains(&machine.cache)
        && way_allowed(machine.line, machine.cache, machine.way)
        && (1..=16).contains(&machine.live)
}

// Row 5. A zero extent makes the total 0.
pub fn total_over(extents: &[u64]) -> bool
    ensures { result ≡ (row5 extents.now).applies }
{
    total_len(extents).is_none()
}

// Whether operand k's reach is above 2^63 - 1.
fn far_at(extents: &[u64], rows: Rows, k: usize) -> bool
    requires { (k < rows.operands) × (length extents.now ≤ rows.pitch) }
    ensures { result ≡ far_at extents.now (row_at extents.now rows.entry.strides.now rows.entry.pitch) k }
{
    reach_of(extents, rows.row(k, extents.len())) > i64::MAX as u64
}

// Whether some operand's is.
fn some_far(extents: &[u64], rows: Rows) -> bool
    requires { length extents.now ≤ rows.pitch }
    ensures { result ≡ some_of (far_at extents.now (row_at extents.now rows.entry.strides.now rows.entry.pitch)) 0 rows.entry.operands }
{
    (0..rows.operands).any(|k| far_at(extents, rows, k))
}

// Row 6.
pub fn reach_over(extents: &[u64], rows: Rows) -> bool
    requires { length extents.now ≤ rows.pitch }
    ensures { result ≡ (row6 extents.now rows.entry.operands (row_at extents.now rows.entry.strides.now rows.entry.pitch)).applies }
{
    !has_zero(extents) && some_far(extents, rows)
}
