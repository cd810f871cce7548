// The blocks of a plan whose total is above 1,024: the model's exits that keep every axis whole, cutting, declining, and the L1 fit of a
// copy. Strides and byte strides stand in flat tables, operand k's for axis i at place k * 64 + i. A byte stride may pass 64 bits; the table
// holds a number of 32 bits that no rule of cutting or fitting tells from it.
#![tactic(auto)]

ghost use Rattle.std.specs.Prelude.{◌≡◌, ◌+◌, ◌*◌, ◌<◌, ◌≤◌, min, length, replicate, false};
ghost use Rattle.strided.specs.Base.{every};
ghost use Rattle.strided.specs.Layout.{chosen};
ghost use Rattle.strided.specs.Refusals.{missing};
ghost use Rattle.strided.specs.Plan.{grows, fitted_for, cut_blocks};
ghost use Rattle.strided.specs.Machine.{Allowed};
ghost use Rattle.strided.specs.Region.{byte_table, region};
ghost use Rattle.strided.specs.declared.Purpose.TheVariants.{Pointwise};
ghost use Rattle.laws.specs.Cut.Image.{Images};
ghost use Rattle.laws.specs.Cut.Saturate.{cap};
ghost use Rattle.model.specs.Plannable.{Plannable};
ghost use Rattle.model.specs.ByteRows.{byte_rows};
ghost use Rattle.model.specs.Exits.{increasing, in_order, ruled};

use block::compute_blocks_at;
use decline::declines_tiles;
use fuse::costs_into;
use l1::L1Sets;
use layout::Rows;
use region::{AllowedMachine, Axes, Cut, Operand, memory_region};
use strided::{Machine, Purpose};

mod image;
mod ranks;

use image::byte_image;
use ranks::plan_ranks_into;

// An operand's byte strides, put into the table behind those of the operands before it: stride size times element size.
fn put_bytes(machine: AllowedMachine, operand: Operand, table: &mut [u32; 512])
    requires { let a = operand.axes in table.old ≡ byte_rows machine.numbers a.sizes.now a.strides.now a.rank operand.k }
    ensures { let o = operand.entry in let a = o.axes in table.new ≡ byte_rows machine.numbers a.sizes.now a.strides.now a.rank (o.k + 1) }
{
    let size = operand.size();
    let from = operand.k * 64;
    for i in 0..operand.axes.rank {
        table[from + i] = byte_image(machine, operand.stride_size(i), size);
    }
}

// The byte strides of every operand, written into a table of zeros.
fn byte_table_into(machine: AllowedMachine, axes: Axes, table: &mut [u32; 512])
    requires { table.old ≡ replicate 512 0 }
    ensures { let a = axes.entry in table.new ≡ byte_rows machine.numbers a.sizes.now a.strides.now a.rank (length a.sizes.now) }
{
    for k in 0..axes.sizes.len() {
        put_bytes(machine, Operand { axes, k }, table);
    }
}

// Whether an operand's strides are nonzero and each is of larger size than the one before.
fn strictly_increasing(operand: Operand) -> bool
    requires { 0 < operand.axes.rank }
    ensures { let o = operand.entry in result ≡ increasing o.axes.strides.now o.axes.rank o.k }
{
    0 < operand.stride_size(0)
        && (0..operand.axes.rank - 1).all(|i| operand.stride_size(i) < operand.stride_size(i + 1))
}

// Whether operand k has a size above 0 and strictly growing strides.
fn grows(axes: Axes, k: usize) -> bool
    requires { (0 < axes.rank) × (k < length axes.sizes.now) }
    ensures { let a = axes.entry in result ≡ grows a.sizes.now a.strides.now a.rank k }
{
    let operand = Operand { axes, k };
    0 < operand.size() && strictly_increasing(operand)
}

// Whether every operand does: then every axis is innermost in its turn, and none is cut.
fn all_grow(axes: Axes) -> bool
    requires { 0 < axes.rank }
    ensures { let a = axes.entry in result ≡ every (grows a.sizes.now a.strides.now a.rank) 0 (length a.sizes.now) }
{
    (0..axes.sizes.len()).all(|k| grows(axes, k))
}

// Whether no axis is cut whatever the extents: there is none, or every operand's strides grow. This takes no table.
fn keeps_order(axes: Axes) -> bool
    ensures { let a = axes.entry in result ≡ in_order a.sizes.now a.strides.now a.rank }
{
    axes.rank == 0 || all_grow(axes)
}

// The region of the whole. If it fits the cache, no axis is cut either; else cutting begins with it.
fn whole_region(cut: Cut) -> u64
    ensures { let c = cut.entry in let a = c.axes in result
        ≡ min (region c.machine.numbers c.bytes.now (length a.sizes.now) a.extents.now 0 a.rank) (cap c.machine.numbers) }
{
    memory_region(cut.all(), cut.axes.extents)
}

// A copy into the chosen operand is fitted to the L1 sets. A fold keeps the model's blocks, which order its sum; walks with more operands
// lose more by short runs than they gain.
fn fit_for(cut: Cut, purpose: Purpose, blocks: &mut [u64; 64])
    requires { missing (length cut.axes.sizes.now) (chosen purpose) ≡ false }
    ensures { let c = cut.entry in let a = c.axes in blocks.new ≡ fitted_for c.machine.numbers purpose c.bytes.now a.sizes.now a.strides.now a.rank blocks.old }
{
    match purpose {
        Purpose::Pointwise | Purpose::Fold(_) => (),
        Purpose::PointwiseInto(c) => {
            if cut.axes.sizes.len() == 2 {
                L1Sets::fit(cut, c as usize, blocks);
            }
        }
    }
}

// The cutting rule on all the plan's axes, which `blocks` holds whole. Costs and ranks are those of the plan's axes, worked out once. `r` is
// the region of the whole.
fn cut_axes(cut: Cut, r: u64, blocks: &mut [u64; 64])
    requires plannable { let a = cut.axes in Plannable a.sizes.now blocks.old a.strides.now a.rank Pointwise }
    requires told { let a = cut.axes in r ≡ min (region cut.machine.numbers cut.bytes.now (length a.sizes.now) blocks.old 0 a.rank) (cap cut.machine.numbers) }
    requires images { let a = cut.axes in Images cut.machine.numbers (length a.sizes.now) a.rank cut.bytes.now (byte_table a.sizes.now a.strides.now) }
    ensures { let c = cut.entry in let a = c.axes in blocks.new ≡ ruled c.machine.numbers a.sizes.now blocks.old a.strides.now a.rank }
{
    let axes = cut.axes;
    let strides = axes.strides;
    let rows = Rows {
        strides,
        pitch: 64,
        operands: axes.sizes.len(),
    };
    let mut costs = [0u64; 64];
    costs_into(rows, axes.rank, &mut costs);
    let mut ranks = [[0u8; 64]; 8];
    plan_ranks_into(axes, &mut ranks);
    compute_blocks_at(cut.all(), &costs, ranks, r, blocks);
}

// The blocks of a plan whose total is above 1,024, from its axes. The tests that keep every axis whole come before what they can spare.
pub fn block_sizes_into(machine: Machine, axes: Axes, purpose: Purpose, blocks: &mut [u64; 64])
    requires allowed { Allowed machine }
    requires plannable { Plannable axes.sizes.now axes.extents.now axes.strides.now axes.rank purpose }
    ensures { let a = axes.entry in blocks.new ≡ cut_blocks machine a.sizes.now a.extents.now a.strides.now a.rank purpose }
{
    *blocks = *axes.extents;
    if keeps_order(axes) {
        return;
    }
    let machine = AllowedMachine { numbers: machine };
    let mut bytes = [0u32; 512];
    byte_table_into(machine, axes, &mut bytes);
    let cut = Cut {
        machine,
        bytes: &bytes,
        axes,
    };
    let r = whole_region(cut);
    if r <= machine.numbers.cache {
        return;
    }
    cut_axes(cut, r, blocks);
    if declines_tiles(machine, axes, blocks) {
        *blocks = *axes.extents;
        return;
    }
    fit_for(cut, purpose, blocks);
}
