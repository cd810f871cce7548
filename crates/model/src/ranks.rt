// The ranks of the plan's axes within each operand, which cutting goes by. They are taken once, over all the plan's axes.
ghost use Rattle.std.specs.Prelude.{◌≡◌, cond, map, eqb, length, replicate};
ghost use Rattle.strided.specs.Base.{padded};
ghost use Rattle.strided.specs.Ranks.{ranks as ranked};
ghost use Rattle.strided.specs.Cut.{plan_ranks};

use auxiliary::index_order_into;
use layout::Row;
use region::Axes;

// The ranks of an operand's strides, written into a row of zeros. At size 0 every byte stride is 0, so every rank is 1.
fn ranks_into(size: u64, row: Row, order: &mut [u8; 64])
    requires { order.old ≡ replicate 64 0 }
    ensures { order.new ≡ padded 64 0 (cond (eqb size 0) (replicate (length row.entry.strides.now) 1) (ranked row.entry.strides.now)) }
{
    if size == 0 {
        order[..row.strides.len()].fill(1);
    } else {
        index_order_into(row, order);
    }
}

// The ranks of the plan's axes within each operand, written into a table of zeros.
pub fn plan_ranks_into(axes: Axes, table: &mut [[u8; 64]; 8])
    requires { table.old ≡ replicate 8 (replicate 64 0) }
    ensures { let a = axes.entry in table.new ≡ padded 8 (replicate 64 0) (map (padded 64 0) (plan_ranks a.sizes.now a.strides.now a.rank)) }
{
    let strides = axes.strides;
    // Kept: an index. The operand's size, its strides and its row of ranks are found by it.
    for k in 0..axes.sizes.len() {
        let start = k * 64;
        let end = start + axes.rank;
        let row = Row {
            strides: &strides[start..end],
        };
        ranks_into(axes.sizes[k], row, &mut table[k]);
    }
}
