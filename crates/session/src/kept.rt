// What a session keeps beside the ranks, worked out of them: the weights, and by these the plan.
ghost use Rattle.std.specs.Prelude.{◌≡◌, false, ◌*◌, ◌≤◌, leb, length, take, replicate};
ghost use Rattle.strided.specs.Base.{padded};
ghost use Rattle.strided.specs.Layout.{total};
ghost use Rattle.strided.specs.Order.{fusing_order};
ghost use Rattle.arrange.specs.Axes.{InOrder};
ghost use Rattle.fuse.specs.Planned.{fused_in};
ghost use Rattle.kernel.specs.Made.{Zeros};
ghost use Rattle.session.specs.Made.{TableOf, purpose_in, weights_in, AxesAt, StaysOf, StaysIn, Cuttable, blocks_in};

use super::SessionLayout;
use arrange::{AsGiven, Order};
use fuse::{fused_into, kept_axes_into, plan_axes_into};
use importance::{Keys, Ranked, first_weights_into, sort_by_importance_into};
use layout::{Layout, lead};
use model::block_sizes_into;
use region::Axes;

// The order in which the axes of a layout of more than 1,024 cells are fused, by the weights of its own, written into an array of zeros.
fn order_kept_into(laid: &SessionLayout, weights: &[u64; 64], order: &mut [usize; 64])
    requires weights_value { weights.now ≡ weights_in laid.now.numbers laid.now.extents.now laid.now.strides.now }
    requires large { leb (total (take laid.now.numbers.rank laid.now.extents.now)) 1024 ≡ false }
    requires zeros { order.old ≡ replicate 64 0 }
    ensures { let n = laid.now.numbers in order.new ≡ padded 64 0 (fusing_order (take n.rank laid.now.extents.now) n.operands
        (take (n.rank * n.operands) laid.now.strides.now) (purpose_in n)) }
{
    let layout = laid.layout();
    let keys = Keys {
        importance: weights,
        extents: layout.extents,
    };
    sort_by_importance_into(keys, order);
}

// The weights of a layout's axes from the table of its ranks, written into an array of zeros.
pub fn weights_kept_into(laid: &SessionLayout, table: &[[u8; 64]; 8], weights: &mut [u64; 64])
    requires table { let n = laid.now.numbers in TableOf (take (n.rank * n.operands) laid.now.strides.now) n.rank n.operands table.now }
    requires zeros { weights.old ≡ replicate 64 0 }
    ensures { weights.new ≡ weights_in laid.now.numbers laid.now.extents.now laid.now.strides.now }
{
    let ranked = Ranked {
        layout: laid.layout(),
        table,
        lead: lead(laid.purpose()),
    };
    first_weights_into(ranked, weights);
}

// The axes of a layout's plan by the weights of its own, written into arrays of zeros. Their number is answered.
// Kept: beside kernel's `plan_into`, which makes the weights. What the two share is `plan_axes_into`, and each is that behind its own order.
pub fn axes_kept_into(
    laid: &SessionLayout,
    weights: &[u64; 64],
    es: &mut [u64; 64],
    plan_strides: &mut [i64; 512],
) -> usize
    requires weights_value { weights.now ≡ weights_in laid.now.numbers laid.now.extents.now laid.now.strides.now }
    requires zeros { Zeros es.old plan_strides.old }
    ensures { AxesAt laid.now.numbers laid.now.extents.now laid.now.strides.now result weights.now es.new plan_strides.new }
{
    let layout = laid.layout();
    let rank = layout.extents.len();
    if laid.small() {
        return plan_axes_into(layout, AsGiven { rank }, es, plan_strides);
    }
    let mut order = [0usize; 64];
    order_kept_into(laid, weights, &mut order);
    plan_axes_into(layout, &order[..rank], es, plan_strides)
}

// The extents of the axes of a layout's plan, fused in an order, and where their strides are, written into arrays of zeros: the number of an
// axis of the layout for each. How many there are is answered.
fn stays_into<O: Order>(layout: Layout, order: O, es: &mut [u64; 64], axes: &mut [u8; 64]) -> usize
    requires order { InOrder (length layout.extents.now) (O.names order) }
    requires zeros { (es.old ≡ replicate 64 0) × (axes.old ≡ replicate 64 0) }
    ensures { let l = layout.entry in
        StaysOf (length l.extents.now) l.operands l.strides.now (fused_in l.extents.now l.operands l.strides.now (O.names order)) result es.new axes.new }
{
    let mut fused = [0u64; 64];
    fused_into(layout, order, &mut fused);
    kept_axes_into(&fused[..order.len()], order, es, axes)
}

// The same by the weights of the layout's own. It is `axes_kept_into` without the strides.
pub fn stays_kept_into(
    laid: &SessionLayout,
    weights: &[u64; 64],
    es: &mut [u64; 64],
    axes: &mut [u8; 64],
) -> usize
    requires weights_value { weights.now ≡ weights_in laid.now.numbers laid.now.extents.now laid.now.strides.now }
    requires es_value { (es.old ≡ replicate 64 0) × (axes.old ≡ replicate 64 0) }
    ensures { let n = laid.now.numbers in
        StaysIn (take n.rank laid.now.extents.now) n.operands (take (n.rank * n.operands) laid.now.strides.now)
        (purpose_in n) result es.new axes.new }
{
    let layout = laid.layout();
    let rank = layout.extents.len();
    if laid.small() {
        return stays_into(layout, AsGiven { rank }, es, axes);
    }
    let mut order = [0usize; 64];
    order_kept_into(laid, weights, &mut order);
    stays_into(layout, &order[..rank], es, axes)
}

// The blocks of the plan whose axes are in the arrays, of a layout of more than 1,024 cells.
pub fn cut_kept_into(
    laid: &SessionLayout,
    es: &[u64; 64],
    plan_strides: &[i64; 512],
    blocks: &mut [u64; 64],
)
    requires cuttable { Cuttable laid.now.numbers laid.now.extents.now laid.now.sizes.now es.now plan_strides.now }
    requires large { leb (total (take laid.now.numbers.rank laid.now.extents.now)) 1024 ≡ false }
    ensures { blocks.new ≡ blocks_in laid.now.numbers laid.now.extents.now laid.now.sizes.now es.now plan_strides.now }
{
    let numbers = laid.numbers;
    let sizes = laid.sizes;
    let axes = Axes {
        sizes: &sizes[..numbers.operands],
        extents: es,
        strides: plan_strides,
        rank: numbers.plan_rank,
    };
    block_sizes_into(numbers.machine, axes, laid.purpose(), blocks);
}

// The blocks of the plan whose axes are in the arrays: at most 1,024 cells are not cut.
pub fn blocks_kept_into(
    laid: &SessionLayout,
    es: &[u64; 64],
    plan_strides: &[i64; 512],
    blocks: &mut [u64; 64],
)
    requires { Cuttable laid.now.numbers laid.now.extents.now laid.now.sizes.now es.now plan_strides.now }
    ensures { blocks.new ≡ blocks_in laid.now.numbers laid.now.extents.now laid.now.sizes.now es.now plan_strides.now }
{
    if laid.small() {
        *blocks = *es;
        return;
    }
    cut_kept_into(laid, es, plan_strides, blocks);
}
