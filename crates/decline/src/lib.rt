// When tiles are declined. A layout whose cut leaves slabs of whole lines, no two of which share a line, gains nothing from tiles: the flat
// walk visits each line once as it is. Sums are in elements: an operand's size is a common factor of all its spans, so only the tests for size 0
// and for whole lines look at it, and everything stays within 1 + reach, which row 6 bounds.
#![tactic(auto)]

ghost use Rattle.std.specs.Prelude.{◌≡◌, ◌^◌, ◌<◌, ◌≤◌, length};
ghost use Rattle.strided.specs.Region.{byte_table};
ghost use Rattle.strided.specs.Decline.{declined};
ghost use Rattle.laws.specs.Cut.Rising.{before, way_of};
ghost use Rattle.laws.specs.Cut.Elements.{whole_lines, slab};
ghost use Rattle.laws.specs.Cut.Tables.{stride_size};
ghost use Rattle.decline.specs.Reach.{WithinReach};
ghost use Rattle.decline.specs.Slabs.{span_to, apart_at, apart_to, share_none, clear_at};

use layout::first_below;
use region::{AllowedMachine, Axes, Operand};

mod slabs;

use slabs::Slabs;

// Whether n elements are whole lines. Two remainders tell it, where n * size may pass 64 bits; by a line, a power of two, they are the low
// bits.
fn whole_lines(machine: AllowedMachine, n: u64, size: u64) -> bool
    ensures { result ≡ whole_lines machine.numbers size n }
{
    let low = machine.numbers.line - 1;
    ((n & low) * (size & low)) & low == 0
}

// What an operand spans along axis i.
fn way_at(operand: Operand, i: usize) -> u64
    requires { (i < 64) × (way_of (stride_size operand.axes.strides.now operand.k) operand.axes.extents.now i ≤ 2 ^ 63) }
    ensures { let o = operand.entry in result ≡ way_of (stride_size o.axes.strides.now o.k) o.axes.extents.now i }
{
    operand.axes.extents[i].saturating_sub(1) * operand.stride_size(i)
}

// The elements that a slab of it spans: the axes before the cut.
fn slab_width(operand: Operand, cut: usize) -> u64
    requires { (cut ≤ 64) × (slab (stride_size operand.axes.strides.now operand.k) operand.axes.extents.now cut ≤ 2 ^ 63) }
    ensures { let o = operand.entry in result ≡ slab (stride_size o.axes.strides.now o.k) o.axes.extents.now cut }
{
    let mut w: u64 = 1;
    for i in 0..cut {
        w += way_at(operand, i);
    }
    w
}

// Whether axis j comes before axis i by rising stride size, the lower axis first where they are equal.
fn comes_before(operand: Operand, i: usize, j: usize) -> bool
    requires { (i < 64) × (j < 64) }
    ensures { let o = operand.entry in result ≡ before (stride_size o.axes.strides.now o.k) i j }
{
    let a = operand.stride_size(j);
    let b = operand.stride_size(i);
    if a == b { j < i } else { a < b }
}

// The span at axis i's turn, which grows from the width.
fn span_so_far(slabs: Slabs, i: usize) -> u64
    requires { i < 64 }
    ensures { let s = slabs.entry in let o = s.operand in result ≡ span_to o.axes.rank o.axes o.k s.cut s.width i }
{
    let mut s = slabs.width;
    for j in slabs.cut..slabs.operand.axes.rank {
        if comes_before(slabs.operand, i, j) {
            s += way_at(slabs.operand, j);
        }
    }
    s
}

// Whether axis i steps by whole lines and by no less than the span so far.
fn keeps_apart(slabs: Slabs, i: usize) -> bool
    requires { i < 64 }
    ensures { let s = slabs.entry in let o = s.operand in result ≡ apart_at s.machine.numbers o.axes o.k s.cut s.width i }
{
    let s = slabs.operand.stride_size(i);
    whole_lines(slabs.machine, s, slabs.operand.size()) && span_so_far(slabs, i) <= s
}

// Whether every axis from the cut on keeps the slabs apart.
fn tail_separated(slabs: Slabs) -> bool
    ensures { let s = slabs.entry in let o = s.operand in result ≡ apart_to o.axes.rank s.machine.numbers o.axes o.k s.cut s.width }
{
    (slabs.cut..slabs.operand.axes.rank).all(|i| keeps_apart(slabs, i))
}

// Whether no two slabs share a line.
fn slabs_share_no_line(slabs: Slabs) -> bool
    ensures { let s = slabs.entry in let o = s.operand in result ≡ share_none s.machine.numbers o.axes o.k s.cut s.width }
{
    let size = slabs.operand.size();
    size == 0 || whole_lines(slabs.machine, slabs.width, size) && tail_separated(slabs)
}

// Whether operand k's slabs at the cut share no line.
fn clear_at(machine: AllowedMachine, axes: Axes, cut: usize, k: usize) -> bool
    requires reach { WithinReach axes }
    requires inside { cut ≤ axes.rank }
    requires there { k < length axes.sizes.now }
    ensures { let a = axes.entry in result ≡ clear_at machine.numbers a cut k }
{
    let operand = Operand { axes, k };
    let width = slab_width(operand, cut);
    let slabs = Slabs {
        machine,
        operand,
        cut,
        width,
    };
    slabs_share_no_line(slabs)
}

// Whether every operand's slabs at the first cut, which is not axis 0, share no line.
pub fn declines_tiles(machine: AllowedMachine, axes: Axes, blocks: &[u64; 64]) -> bool
    requires { WithinReach axes }
    ensures { let a = axes.entry in result ≡ declined machine.numbers (byte_table a.sizes.now a.strides.now)
        a.sizes.now (length a.sizes.now) a.extents.now a.rank blocks.now }
{
    let extents = axes.extents;
    let Some(cut) = first_below(&blocks[..axes.rank], &extents[..axes.rank]) else {
        return false;
    };
    if cut == 0 {
        return false;
    }
    (0..axes.sizes.len()).all(|k| clear_at(machine, axes, cut, k))
}
