// Planning: the plan of a layout for a purpose, as pointwise_plan and fold_plan of the Rust make it, and the public entry, which first
// refuses what cannot be planned. A plan is 5 KB: it is made in arrays that the entry lends, and put together once, at the end.
#![tactic(auto)]

ghost use Rattle.std.specs.Prelude.{◌≡◌, ◌++◌, ◌≤◌, pos, length, replicate, drop};
ghost use Rattle.strided.specs.Base.{padded};
ghost use Rattle.strided.specs.Layout.{extents as extents_of};
ghost use Rattle.strided.specs.Machine.{Allowed};
ghost use Rattle.strided.specs.Fuse.{plan_axes};
ghost use Rattle.strided.specs.Plan.{stride_table, planned};
ghost use Rattle.laws.specs.Refusals.Accepted.{Accepted};
ghost use Rattle.kernel.specs.Made.{Zeros, Made};

use arrange::AsGiven;
use fuse::plan_axes_into;
use layout::{Layout, check_planning, total_at_most};
use model::block_sizes_into;
use order::{SMALL_TENSOR_THRESHOLD, fusing_order_into};
use region::Axes;
use strided::{Machine, Plan, Purpose, Refusal};

// Kept: a plan's arrays are lent as zeros, one by one: who lends them has cleared them already, and a struct of `&mut` fields would say in each
// contract of each that it is lent on.
// Kept: who plans for a use of its own (text, export, summary) has three arrays, an aim and the plan that lends them one behind the other. A
// function over a closure for what comes behind would ask of it, for every plan that `Made` allows, what each of the three does: list, copy, sum.

// What a plan is for: layout, purpose and record alone fix the plan.
#[derive(Clone, Copy)]
pub struct Aim {
    pub purpose: Purpose,
    pub machine: Machine,
}

// Zeros in the arrays that a plan's axes are written into. The strides are cleared in two halves with the extents between them: each is a
// call of the C library's memset, which takes longer for 4 KB at once than for 2 KB twice.
pub fn clear_axes(es: &mut [u64; 64], table: &mut [i64; 512])
    ensures { Zeros es.new table.new }
{
    table[..256].fill(0);
    *es = [0u64; 64];
    table[256..].fill(0);
}

// The axes of the plan, their extents and strides written into arrays of zeros. Their number is answered.
pub fn axes_into(
    layout: Layout,
    purpose: Purpose,
    es: &mut [u64; 64],
    table: &mut [i64; 512],
) -> usize
    requires zeros { Zeros es.old table.old }
    ensures rank { result ≡ length (plan_axes layout.entry.extents.now layout.entry.operands layout.entry.strides.now purpose) }
    ensures extents { es.new ≡ padded 64 0 (extents_of
        (plan_axes layout.entry.extents.now layout.entry.operands layout.entry.strides.now purpose)) }
    ensures strides { table.new ≡ stride_table
        (plan_axes layout.entry.extents.now layout.entry.operands layout.entry.strides.now purpose) layout.entry.operands }
{
    let mut weights = [0u64; 64];
    let mut order = [0usize; 64];
    fusing_order_into(layout, purpose, &mut weights, &mut order);
    plan_axes_into(layout, &order[..layout.extents.len()], es, table)
}

// The plan of a layout that is not refused, made in arrays of zeros: its axes are fused, and cut if there are more than 1,024 cells. So few
// lie in the cache anyway, and cutting them gains nothing. It is for whoever has checked the layout, as the text entry has. The Rust's
// pointwise_plan and fold_plan are both this: they differ in the purpose alone.
pub fn plan_into<'a>(
    aim: Aim,
    layout: Layout<'a>,
    sizes: &'a [u64],
    es: &mut [u64; 64],
    blocks: &mut [u64; 64],
    table: &mut [i64; 512],
) -> usize
    requires allowed { Allowed aim.machine }
    requires operands { layout.operands ≡ length sizes.now }
    requires accepted { Accepted layout.extents.now sizes.now layout.strides.now aim.purpose }
    requires zeros { Zeros es.old table.old }
    ensures { Made aim.machine layout.entry.extents.now sizes.now layout.entry.strides.now aim.purpose
        result es.new blocks.new table.new }
{
    if total_at_most(layout.extents, SMALL_TENSOR_THRESHOLD) {
        let order = AsGiven {
            rank: layout.extents.len(),
        };
        let rank = plan_axes_into(layout, order, &mut *es, &mut *table);
        *blocks = *es;
        return rank;
    }
    let rank = axes_into(layout, aim.purpose, &mut *es, &mut *table);
    let axes = Axes {
        sizes,
        extents: es,
        strides: table,
        rank,
    };
    block_sizes_into(aim.machine, axes, aim.purpose, blocks);
    rank
}

// THE PLAN of a layout for a purpose on a machine: rows 1 to 4, 24, 5, 6, then the plan.
pub fn plan<'a>(
    extents: &'a [u64],
    sizes: &'a [u64],
    strides: &'a [i64],
    purpose: Purpose,
    machine: Machine,
) -> Result<Plan, Refusal>
    ensures { result ≡ planned machine extents.now sizes.now strides.now purpose }
{
    let layout = check_planning(extents, sizes, strides, purpose, machine)?;
    let mut es = [0u64; 64];
    let mut blocks = [0u64; 64];
    let mut table = [0i64; 512];
    let aim = Aim { purpose, machine };
    let rank = plan_into(aim, layout, sizes, &mut es, &mut blocks, &mut table);
    let made = Plan {
        rank,
        operands: sizes.len(),
        extents: es,
        blocks,
        strides: table,
    };
    Ok(made)
}
