// A session made in lent arrays: its layout at the beginning, with an operand more, and with one less, and then everything that the layout
// gives. Who calls has judged the rows.
ghost use Rattle.std.specs.Prelude.{◌≡◌, [], ◌∷◌, ◌++◌, ◌*◌, ◌≤◌, ◌<◌, pos, length, take, replicate};
ghost use Rattle.strided.specs.Base.{padded};
ghost use Rattle.session.specs.Session.{sizes_without, strides_without};
ghost use Rattle.session.specs.Made.{TableOf, KeptIn, LayoutRight, given_in, Standing, begun_with, with_more, with_less, with_plan};

use super::layouts::{
    add_row, drop_row, kind_of, purpose_without, put_row, put_strides, ranks_into,
};
use auxiliary::rank_table_into;
use fuse::costs_into;
use kernel::Aim;
use layout::{Layout, Row, Rows, lay_into, lead, purpose_of};
use session::kept::{axes_kept_into, blocks_kept_into, weights_kept_into};
use session::{Numbers, SessionLayout};

// ---- the numbers

// Those of a session that begins.
pub fn begun(aim: Aim, rank: usize, operands: usize) -> Numbers
    ensures { result ≡ begun_with aim.machine aim.purpose rank operands }
{
    let purpose = aim.purpose;
    let machine = aim.machine;
    Numbers {
        purpose: kind_of(purpose),
        chosen: lead(purpose),
        machine,
        rank,
        operands,
        plan_rank: 0,
        plan_operands: 0,
    }
}

// Those with an operand more.
pub fn grown(numbers: Numbers) -> Numbers
    requires { numbers.operands < 8 }
    ensures { result ≡ with_more numbers }
{
    Numbers {
        operands: numbers.operands + 1,
        ..numbers
    }
}

// Those without operand k.
pub fn shrunk(numbers: Numbers, k: u64) -> Numbers
    requires { 1 < numbers.operands }
    ensures { result ≡ with_less numbers k }
{
    let purpose = purpose_without(k, purpose_of(numbers.purpose, numbers.chosen));
    Numbers {
        purpose: kind_of(purpose),
        chosen: lead(purpose),
        operands: numbers.operands - 1,
        ..numbers
    }
}

// Those with the plan's rank and operands.
fn planned(numbers: Numbers, axes: usize) -> Numbers
    ensures { result ≡ with_plan numbers axes }
{
    Numbers {
        plan_rank: axes,
        plan_operands: numbers.operands,
        ..numbers
    }
}

// ---- the layout

// A layout's operands, laid into a session's arrays, and the table of their ranks, which is lent as zeros.
pub fn lay_operands<'a>(
    layout: Layout<'a>,
    layout_sizes: &'a [u64],
    table: &mut [[u8; 64]; 8],
    sizes: &mut [u64; 8],
    strides: &mut [i64; 512],
    ranks: &mut [u64; 512],
)
    requires operands { layout.operands ≡ length layout_sizes.now }
    requires table_value { table.old ≡ replicate 8 (replicate 64 0) }
    ensures { Standing (length layout.entry.extents.now) layout_sizes.now layout.entry.strides.now sizes.new strides.new ranks.new table.new }
{
    *sizes = [0u64; 8];
    lay_into(layout_sizes, &mut *sizes);
    *strides = [0i64; 512];
    put_strides(strides, 0, layout.strides);
    rank_table_into(layout, &mut *table);
    *ranks = [0u64; 512];
    ranks_into(table, layout_sizes.len(), ranks);
}

// An operand joins at the end: its own ranks alone are worked out.
pub fn add_operand(
    numbers: Numbers,
    size: u64,
    joining: &[i64],
    table: &mut [[u8; 64]; 8],
    sizes: &mut [u64; 8],
    strides: &mut [i64; 512],
    ranks: &mut [u64; 512],
)
    requires operands_bound { (numbers.operands < 8) × (length joining.now ≡ numbers.rank) }
    requires standing { Standing numbers.rank (take numbers.operands sizes.old) (take (numbers.rank * numbers.operands) strides.old)
        sizes.old strides.old ranks.old table.old }
    ensures { Standing numbers.rank (take numbers.operands sizes.old ++ (size ∷ []))
        (take (numbers.rank * numbers.operands) strides.old ++ joining.now)
        sizes.new strides.new ranks.new table.new }
{
    let operands = numbers.operands;
    add_row(&mut *table, operands, Row { strides: joining });
    put_row(&table[operands], operands * 64, ranks);
    put_strides(strides, numbers.rank * operands, joining);
    sizes[operands] = size;
}

// Operand k leaves, and the later ones move up with their ranks.
pub fn drop_operand(
    numbers: Numbers,
    k: usize,
    table: &mut [[u8; 64]; 8],
    sizes: &mut [u64; 8],
    strides: &mut [i64; 512],
    ranks: &mut [u64; 512],
)
    requires k_lt_operands { (k < numbers.operands) × (numbers.operands ≤ 8) }
    requires standing { Standing numbers.rank (take numbers.operands sizes.old) (take (numbers.rank * numbers.operands) strides.old)
        sizes.old strides.old ranks.old table.old }
    ensures { Standing numbers.rank (sizes_without k (take numbers.operands sizes.old))
        (strides_without numbers.rank numbers.operands k (take (numbers.rank * numbers.operands) strides.old))
        sizes.new strides.new ranks.new table.new }
{
    let operands = numbers.operands;
    drop_row(table, 1, operands, k, [0u8; 64]);
    drop_row(ranks, 64, operands, k, 0);
    drop_row(sizes, 1, operands, k, 0);
    drop_row(strides, numbers.rank, operands, k, 0);
}

// ---- what the layout gives

// The strides of a session's plan, cleared for those of the next. Only the rows of its operands are not 0 as it is.
pub fn clear_plan(numbers: Numbers, plan_strides: &mut [i64; 512])
    requires plan_operands_bound { numbers.plan_operands ≤ 8 }
    requires plan_strides_value { plan_strides.old ≡ padded 512 (pos 0) (take (numbers.plan_operands * 64) plan_strides.old) }
    ensures { plan_strides.new ≡ replicate 512 (pos 0) }
{
    plan_strides[..numbers.plan_operands * 64].fill(0);
}

// Weights, costs and plan of the layout that stands in a session's arrays, from the table of its ranks. The strides of a plan are lent as
// zeros. The session's numbers are answered.
pub fn keep(
    laid: &SessionLayout,
    table: &[[u8; 64]; 8],
    weights: &mut [u64; 64],
    costs: &mut [u64; 64],
    plan_extents: &mut [u64; 64],
    blocks: &mut [u64; 64],
    plan_strides: &mut [i64; 512],
) -> Numbers
    requires layout_right { LayoutRight laid.now.numbers laid.now.extents.now laid.now.sizes.now laid.now.strides.now }
    requires table_of { let n = laid.now.numbers in TableOf (take (n.rank * n.operands) laid.now.strides.now) n.rank n.operands table.now }
    requires plan_strides_value { plan_strides.old ≡ replicate 512 (pos 0) }
    ensures numbers { result ≡ with_plan laid.now.numbers result.plan_rank }
    ensures kept { let g = given_in laid.now.numbers laid.now.extents.now laid.now.sizes.now laid.now.strides.now in
        KeptIn g result.plan_rank weights.new costs.new plan_extents.new blocks.new plan_strides.new }
{
    *weights = [0u64; 64];
    weights_kept_into(laid, table, &mut *weights);
    *plan_extents = [0u64; 64];
    let axes = axes_kept_into(laid, weights, &mut *plan_extents, &mut *plan_strides);
    let numbers = planned(laid.numbers, axes);
    let rows = Rows {
        strides: plan_strides,
        pitch: 64,
        operands: numbers.operands,
    };
    *costs = [0u64; 64];
    costs_into(rows, axes, &mut *costs);
    // Kept: `..*laid` is refused by the compiler in a literal of a struct with ghost fields.
    let after = SessionLayout {
        numbers,
        extents: laid.extents,
        sizes: laid.sizes,
        strides: laid.strides,
    };
    blocks_kept_into(&after, plan_extents, plan_strides, blocks);
    numbers
}
