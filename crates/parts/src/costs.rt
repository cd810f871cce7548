// What a part needs beside the planner's own functions. It stands in a file of its own: a function that C calls may not lie beside a contract
// that names a type with a ghost fact.
ghost use Rattle.std.specs.Prelude.{◌≡◌, ◌<◌};
ghost use Rattle.strided.specs.Base.{padded};
ghost use Rattle.parts.specs.Answers.{plan_costs};

use fuse::costs_into;
use kernel::axes_into;
use layout::{Layout, Rows};
use strided::Purpose;

// The costs of the plan's axes, 0 where an axis has none.
pub fn costs_of(layout: Layout, purpose: Purpose) -> [u64; 64]
    requires { 0 < layout.operands }
    ensures { result ≡ padded 64 0 (plan_costs layout.entry.extents.now layout.entry.operands layout.entry.strides.now purpose) }
{
    let mut es = [0u64; 64];
    let mut table = [0i64; 512];
    let rank = axes_into(layout, purpose, &mut es, &mut table);
    let rows = Rows {
        strides: &table,
        pitch: 64,
        operands: layout.operands,
    };
    let mut costs = [0u64; 64];
    costs_into(rows, rank, &mut costs);
    costs
}
