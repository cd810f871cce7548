// The loop order of a layout, its axes from the innermost loop to the outermost, and the order in which a plan's axes are fused.
#![tactic(auto)]

ghost use Rattle.std.specs.Prelude.{◌≡◌, true, ◌≤◌, length, drop, replicate};
ghost use Rattle.strided.specs.Base.{padded, run};
ghost use Rattle.strided.specs.Layout.{lead as lead_of};
ghost use Rattle.strided.specs.Order.{loop_order, fusing_order};
ghost use Rattle.strided.specs.Step.{blank};
ghost use Rattle.strided.specs.Weights.{weights as weighed};

use importance::{Keys, compute_importance_into, sort_by_importance_into};
use layout::{Layout, lead, total_at_most};
use strided::Purpose;

// Kept: weights and axes are written into arrays that are lent as zeros: who lends one has cleared it already. Cleared here again, with what
// `importance` and `auxiliary` clear, index finding takes 86 ns for 61 at 10 x 10, and planning 6 % more in the median.

// A layout with no more cells than this is walked as it is given: finding a better order would cost more than it gains.
pub const SMALL_TENSOR_THRESHOLD: u64 = 1024;

// The axes of a layout by falling weight, where the lead is the chosen operand, or operand 0 if none is; on equal weight the longer first.
// Weights and axes are written into arrays of zeros.
pub fn compute_order_into(
    layout: Layout,
    purpose: Purpose,
    weights: &mut [u64; 64],
    out: &mut [usize; 64],
)
    requires zeros { (weights.old ≡ replicate 64 0) × (out.old ≡ replicate 64 0) }
    ensures weights { weights.new ≡ padded 64 0 (weighed layout.entry.extents.now layout.entry.operands layout.entry.strides.now (lead_of purpose)) }
    ensures order { out.new ≡ padded 64 0 (loop_order layout.entry.extents.now layout.entry.operands layout.entry.strides.now purpose) }
{
    compute_importance_into(layout, lead(purpose), &mut *weights);
    let keys = Keys {
        importance: weights,
        extents: layout.extents,
    };
    sort_by_importance_into(keys, out);
}

// The axes as they are given: at each place its own number.
pub fn as_given_into(out: &mut [usize])
    ensures { out.new ≡ run 0 (length out.old) }
{
    for (i, axis) in out.iter_mut().enumerate() {
        *axis = i;
    }
}

// The order in which a plan's axes are fused, written into an array of zeros: as given if the layout is small, else the loop order. Its weights
// are made in a second array of zeros, which is 0 behind the rank then: who has use for such an array need not clear another.
pub fn fusing_order_into(
    layout: Layout,
    purpose: Purpose,
    weights: &mut [u64; 64],
    out: &mut [usize; 64],
)
    requires zeros { (weights.old ≡ replicate 64 0) × (out.old ≡ replicate 64 0) }
    ensures weights { blank (drop (length layout.entry.extents.now) weights.new) ≡ true }
    ensures order { out.new ≡ padded 64 0 (fusing_order layout.entry.extents.now layout.entry.operands layout.entry.strides.now purpose) }
{
    if total_at_most(layout.extents, SMALL_TENSOR_THRESHOLD) {
        as_given_into(&mut out[..layout.extents.len()]);
    } else {
        compute_order_into(layout, purpose, weights, out);
    }
}
