// Row 9, "some offset from the start leaves 64-bit signed", told from the offsets at any counters: how far the offsets lie below and above
// those is within the reach, so nothing overflows on the way.
ghost use Rattle.std.specs.Prelude.{◌≡◌, pos, ◌+ℤ◌, ◌-ℤ◌};
ghost use Rattle.strided.specs.Base.{some_of};
ghost use Rattle.strided.specs.Layout.{in_i64, reach};
ghost use Rattle.laws.specs.Walk.Row9.{below_of};
ghost use Rattle.states.specs.Starts.{some_leave, Placed, Begins};
ghost use Rattle.states.specs.Arrays.{leaves_at, StandsAt, Standing};

use super::arrays;
use layout::{Along, LentPlan};

// Whether `below` places lie between the least i64 and `o`.
fn room_below(o: i64, below: u64) -> bool
    ensures { result ≡ in_i64 (o -ℤ pos below) }
{
    o.checked_sub_unsigned(below).is_some()
}

// Whether `above` places lie between `o` and the greatest i64.
fn room_above(o: i64, above: u64) -> bool
    ensures { result ≡ in_i64 (o +ℤ pos above) }
{
    o.checked_add_unsigned(above).is_some()
}

// How far apart an operand's offsets lie, and how far below the one at the counters.
#[derive(Clone, Copy)]
pub struct Span {
    pub reach: u64,
    pub below: u64,
}

// The reach has been tested, so that nothing is capped here, and both are found in one go.
fn span_of<'a, 'b>(extents: &'a [u64], strides: &'a [i64], counters: &'b [u64]) -> Span
    requires { Placed extents.now strides.now counters.now }
    ensures { (result.reach ≡ reach extents.now strides.now)
        × (result.below ≡ below_of extents.now strides.now counters.now) }
{
    let mut reach: u64 = 0;
    let mut below: u64 = 0;
    for i in 0..extents.len() {
        let axis = Along {
            extent: extents[i],
            stride: strides[i],
        };
        let way = axis.way();
        let term = axis.below_at(counters[i]);
        reach += way;
        below += term;
    }
    Span { reach, below }
}

// Whether some offset of operand k leaves 64-bit signed, told from its offset at the counters. Its strides stand from k * 64 on.
fn leaves_at(extents: &[u64], strides: &[i64], counters: &[u64], offsets: &[i64], k: usize) -> bool
    requires { StandsAt extents.now strides.now counters.now offsets.now k }
    ensures { result ≡ leaves_at extents.now strides.now counters.now offsets.now k }
{
    let from = k * 64;
    let span = span_of(extents, &strides[from..from + extents.len()], counters);
    let o = offsets[k];
    !room_below(o, span.below) || !room_above(o, span.reach - span.below)
}

// Whether some offset of an operand leaves 64-bit signed.
pub(super) fn some_leave(
    extents: &[u64],
    strides: &[i64],
    counters: &[u64],
    offsets: &[i64],
    operands: usize,
) -> bool
    requires { Standing extents.now strides.now counters.now offsets.now operands }
    ensures { result ≡ some_of (leaves_at extents.now strides.now counters.now offsets.now) 0 operands }
{
    (0..operands).any(|k| leaves_at(extents, strides, counters, offsets, k))
}

// Row 9, told from the offsets at the counters.
pub fn starts_leave<'a>(plan: &LentPlan, counters: &'a [u64], offsets: &'a [i64]) -> bool
    requires { Begins plan.now counters.now offsets.now }
    ensures { result ≡ some_leave plan.now counters.now offsets.now }
{
    let strides = plan.strides;
    arrays::starts_leave(plan.axes(), strides, counters, offsets, plan.operands)
}
