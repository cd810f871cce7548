// A quick answer for rows 6 and 9: where no extent, no stride and no offset is large no offset of a walk leaves 64-bit signed, and nothing need
// be multiplied.
ghost use Rattle.std.specs.Prelude.{◌≡◌, true, ◌^◌, ◌<◌, nat_abs};
ghost use Rattle.strided.specs.Begin.{plan_row};
ghost use Rattle.layout.specs.Near.{all_below};
ghost use Rattle.states.specs.Near.{RowsNear, Near};

use layout::{LentPlan, all_below};

// Whether the sizes of operand k's strides are below 2^40.
fn row_near(plan: &LentPlan, k: usize) -> bool
    requires { k < plan.now.operands }
    ensures { result ≡ all_below nat_abs (2 ^ 40) (plan_row plan.now k) }
{
    all_below(plan.row(k), 40)
}

// Yes only if those of all operands are.
fn rows_near(plan: &LentPlan) -> bool
    ensures { result ≡ true → RowsNear plan.now }
{
    (0..plan.operands).all(|k| row_near(plan, k))
}

// Yes only where nothing is large: 64 products of extents below 2^16 and strides below 2^40 have a sum below 2^62, and so are the offsets.
pub fn all_near(plan: &LentPlan, offsets: &[i64]) -> bool
    ensures { result ≡ true → Near plan.now offsets.now }
{
    all_below(offsets, 62) && all_below(plan.axes(), 16) && rows_near(plan)
}
