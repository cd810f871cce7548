// Fusing axes, dropping those of extent 1, and the costs of the axes that are left: fuse_dims, compress_dims and compute_costs of the Rust.
// Axes are named by an order, and a layout's strides or a plan's are read as rows of a pitch. So a layout's axes are fused where they stand,
// and only the plan's strides are written.
#![tactic(auto)]

ghost use Rattle.std.specs.Prelude.{◌≡◌, true, List, ◌&&◌, ℕ, ◌+◌, ◌*◌, ◌^◌, ◌<◌, ◌≤◌, ltb, pos, nat_abs, length, get_or, take, drop, replicate};
ghost use Rattle.strided.specs.Base.{padded, least as leastOf};
ghost use Rattle.strided.specs.Layout.{stride_column, extents as extents_of};
ghost use Rattle.strided.specs.Order.{pick};
ghost use Rattle.strided.specs.Fuse.{joins as joins_at, all_join, fuse as fuseAxes, compress};
ghost use Rattle.strided.specs.Plan.{stride_table};
ghost use Rattle.strided.specs.Step.{blank};
ghost use Rattle.strided.specs.Costs.{still, cost_of, cost_number, costs};
ghost use Rattle.laws.specs.Fuse.Places.{axes_by};
ghost use Rattle.arrange.specs.Axes.{InOrder};
ghost use Rattle.fuse.specs.Kept.{stays};
ghost use Rattle.fuse.specs.Planned.{extents_in, fused_in};
ghost use Rattle.fuse.specs.Sizes.{size_at};

use arrange::{Order, Ordered, pick_into, pick_strides_into};
use layout::{Layout, Rows};

// ---- which axes join

// Whether an axis of stride b joins one of extent e and stride a, at one operand.
fn joins(e: u64, a: i64, b: i64) -> bool
    ensures { result ≡ joins_at e a b }
{
    if a == 0 {
        return b == 0;
    }
    i64::try_from(e).is_ok_and(|s| s.checked_mul(a) == Some(b))
}

// Whether axis i joins axis h, of extent e, at every operand. The last one is asked first: the order of the axes goes by operand 0, unless
// another leads, so that of two neighbours which do not join the first operands often say the least.
fn all_join(e: u64, rows: Rows, h: usize, i: usize) -> bool
    requires { (h < rows.pitch) × (i < rows.pitch) }
    ensures { result ≡ all_join e (stride_column rows.entry.strides.now rows.entry.pitch h 0 rows.entry.operands)
        (stride_column rows.entry.strides.now rows.entry.pitch i 0 rows.entry.operands) }
{
    (0..rows.operands).rev().all(|k| {
        let p = k * rows.pitch;
        joins(e, rows.strides[p + h], rows.strides[p + i])
    })
}

// Whether axis i, of extent b, joins axis h, of extent a.
fn can_fuse(a: u64, b: u64, rows: Rows, h: usize, i: usize) -> bool
    requires { (h < rows.pitch) × (i < rows.pitch) }
    ensures { result ≡ (all_join a (stride_column rows.entry.strides.now rows.entry.pitch h 0 rows.entry.operands)
        (stride_column rows.entry.strides.now rows.entry.pitch i 0 rows.entry.operands) && ltb (a * b) (2 ^ 64)) }
{
    all_join(a, rows, h, i) && a.checked_mul(b).is_some()
}

// ---- fusing

// Kept: what is written goes into arrays that are lent as zeros, here and below: who lends one has cleared it already. Clearing it again takes
// 146 ns for the 106 in which 10 x 10 is planned.

// The extents of axes after fusing. From the last place down, an axis that joins the one before it becomes one of extent 1. The strides stay.
pub fn fuse_dims<O: Order>(extents: &mut [u64; 64], axes: Ordered<O>)
    requires { extents.old ≡ padded 64 0 (take (length (O.names axes.order)) extents.old) }
    ensures { let a = axes.entry in let r = a.rows in let o = O.names a.order in extents.new
        ≡ padded 64 0 (extents_of (fuseAxes (axes_by r.strides.now r.pitch r.operands o (take (length o) extents.old)))) }
{
    let rank = axes.order.len();
    for i in (1..rank).rev() {
        let h = i - 1;
        let outer = axes.order.axis(i);
        let inner = axes.order.axis(h);
        if can_fuse(extents[h], extents[i], axes.rows, inner, outer) {
            extents[h] *= extents[i];
            extents[i] = 1;
        }
    }
}

// The extents of a layout's axes in the order, fused, written into an array that is 0 behind them.
pub fn fused_into<O: Order>(layout: Layout, order: O, fused: &mut [u64; 64])
    requires order { InOrder (length layout.extents.now) (O.names order) }
    requires out { blank (drop (length (O.names order)) fused.old) ≡ true }
    ensures { fused.new ≡ padded 64 0 (extents_in layout.entry.extents.now layout.entry.operands layout.entry.strides.now (O.names order)) }
{
    let rows = layout.rows();
    pick_into(layout.extents, order, &mut *fused);
    fuse_dims(&mut *fused, Ordered { rows, order });
}

// ---- dropping

// The axes whose extent is not 1, with their extents, written into arrays of zeros. If there is none the first axis stays, so that a walk has
// an axis to step on.
pub fn kept_axes_into<O: Order>(
    fused: &[u64],
    order: O,
    extents: &mut [u64; 64],
    axes: &mut [u8; 64],
) -> usize
    requires arrays { (length (O.names order) ≡ length fused.now) × (length fused.now ≤ 64) }
    requires inside { (j : ℕ) → j < length fused.now → get_or (O.names order) j 0 < 256 }
    requires zeros { (extents.old ≡ replicate 64 0) × (axes.old ≡ replicate 64 0) }
    ensures count { result ≡ length (stays fused.now) }
    ensures extents { extents.new ≡ padded 64 0 (pick 0 fused.now (stays fused.now)) }
    ensures axes { axes.new ≡ padded 64 0 (pick 0 (O.names order) (stays fused.now)) }
{
    let mut count: usize = 0;
    for (i, f) in fused.iter().enumerate() {
        if *f != 1 {
            extents[count] = *f;
            axes[count] = order.axis(i) as u8;
            count += 1;
        }
    }
    if count == 0 && !fused.is_empty() {
        extents[0] = fused[0];
        axes[0] = order.axis(0) as u8;
        return 1;
    }
    count
}

// The axes without those of extent 1, written into arrays of zeros: their extents, and operand k's stride on axis i at k * 64 + i. Answers how
// many there are.
pub fn compress_dims<O: Order>(
    fused: &[u64],
    axes: Ordered<O>,
    extents: &mut [u64; 64],
    table: &mut [i64; 512],
) -> usize
    requires fused { (length (O.names axes.order) ≡ length fused.now) × (axes.rows.pitch ≤ 64) }
    requires zeros { (extents.old ≡ replicate 64 0) × (table.old ≡ replicate 512 (pos 0)) }
    ensures rank { let a = axes.entry in let r = a.rows in result
        ≡ length (compress (axes_by r.strides.now r.pitch r.operands (O.names a.order) fused.now)) }
    ensures extents { let a = axes.entry in let r = a.rows in extents.new
        ≡ padded 64 0 (extents_of (compress (axes_by r.strides.now r.pitch r.operands (O.names a.order) fused.now))) }
    ensures strides { let a = axes.entry in let r = a.rows in table.new
        ≡ stride_table (compress (axes_by r.strides.now r.pitch r.operands (O.names a.order) fused.now)) r.operands }
{
    let mut kept = [0u8; 64];
    let count = kept_axes_into(fused, axes.order, extents, &mut kept);
    let picked = Ordered {
        rows: axes.rows,
        order: &kept[..count],
    };
    pick_strides_into(picked, table);
    count
}

// The axes of a layout's plan, written into arrays of zeros: put into the order, fused, those of extent 1 dropped. Answers how many axes
// there are.
pub fn plan_axes_into<O: Order>(
    layout: Layout,
    order: O,
    es: &mut [u64; 64],
    table: &mut [i64; 512],
) -> usize
    requires order { InOrder (length layout.extents.now) (O.names order) }
    requires zeros { (es.old ≡ replicate 64 0) × (table.old ≡ replicate 512 (pos 0)) }
    ensures rank { result ≡ length (fused_in layout.entry.extents.now layout.entry.operands layout.entry.strides.now (O.names order)) }
    ensures extents { es.new ≡ padded 64 0 (extents_of
        (fused_in layout.entry.extents.now layout.entry.operands layout.entry.strides.now (O.names order))) }
    ensures strides { table.new ≡ stride_table
        (fused_in layout.entry.extents.now layout.entry.operands layout.entry.strides.now (O.names order)) layout.entry.operands }
{
    let rows = layout.rows();
    let mut fused = [0u64; 64];
    fused_into(layout, order, &mut fused);
    compress_dims(&fused[..order.len()], Ordered { rows, order }, es, table)
}

// ---- costs

// The strides of one axis.
#[derive(Clone, Copy)]
struct Column<'a> {
    rows: Rows<'a>,
    axis: usize,
    ghost some: { 0 < rows.operands },
    ghost inside: { axis < rows.pitch },
}

impl<'a> Column<'a> {
    // The size of operand k's stride.
    fn size(self, k: usize) -> u64
        requires { k < self.rows.operands }
        ensures { result ≡ size_at self.entry.rows.strides.now self.entry.rows.pitch self.entry.axis k }
    {
        self.rows.strides[k * self.rows.pitch + self.axis].unsigned_abs()
    }

    // The least size.
    fn least_size(self) -> u64
        ensures { let r = self.entry.rows in result ≡ leastOf (size_at r.strides.now r.pitch self.entry.axis) 0 r.operands }
    {
        let mut size = self.size(0);
        for k in 1..self.rows.operands {
            size = size.min(self.size(k));
        }
        size
    }

    // Whether every size is 0, so that nobody moves along the axis.
    fn stays(self) -> bool
        ensures { let r = self.entry.rows in result ≡ still (size_at r.strides.now r.pitch self.entry.axis) r.operands }
    {
        (0..self.rows.operands).all(|k| self.size(k) == 0)
    }

    // The cost of the axis, if it has one. It only ranks axes, so it saturates.
    fn cost(self) -> Option<u64>
        ensures { let r = self.entry.rows in result ≡ cost_of (size_at r.strides.now r.pitch self.entry.axis) r.operands }
    {
        let size = self.least_size();
        if size == 0 {
            return (!self.stays()).then_some(1);
        }
        Some(size.saturating_mul(2).min(i64::MAX as u64))
    }
}

// The cost of one of the axes, 0 where it has none.
pub fn cost_at(rows: Rows, axis: usize) -> u64
    requires { (0 < rows.operands) × (axis < rows.pitch) }
    ensures { let r = rows.entry in result ≡ cost_number (cost_of (size_at r.strides.now r.pitch axis) r.operands) }
{
    let column = Column { rows, axis };
    column.cost().unwrap_or(0)
}

// The costs of a plan's axes, 0 where an axis has none, written into an array of zeros.
pub fn costs_into(rows: Rows, rank: usize, found: &mut [u64; 64])
    requires operands { 0 < rows.operands }
    requires pitch { rows.pitch ≡ 64 }
    requires rank { rank ≤ 64 }
    requires zeros { found.old ≡ replicate 64 0 }
    ensures { found.new ≡ padded 64 0 (costs rows.entry.strides.now rows.entry.operands rank) }
{
    // Kept: an index, which is the axis, too.
    for i in 0..rank {
        found[i] = cost_at(rows, i);
    }
}
