// What is told of a plan's arrays one by one, for whoever has no plan to lend: a move of the offsets, the block sizes in force, where tiles
// start, the axes that move inside one, the length of a block, the strides of an axis. On a plan that is lent it is told by these.
ghost use Rattle.std.specs.Prelude.{◌≡◌, ℕ, ◌<◌, ◌≤◌, get_or, replicate};
ghost use Rattle.advance.specs.Moves.{ShiftsTo, shifted_to};
ghost use Rattle.advance.specs.Axis.{width_of, starts_to};
ghost use Rattle.advance.specs.Arrays.{widths_in, SingleTo, length_on, length_of, firsts_in};
ghost use Rattle.advance.specs.Blocks.{column_to};

use super::{effective, moved, tile_start};

// Each operand's offset after the same move along an axis. The strides of operand `k` stand at `k * 64`.
// Kept: a range, for the reason at walker::arrays::move_by; and the strides lie 64 places apart. `min` only tells the compiler that there are few: else
// it lays the loop out for many too, and asks at each move which it is (a walk of rank 9 is a sixth more instructions).
pub fn shift(operands: usize, axis: usize, from: u64, to: u64, s: &[i64; 512], o: &mut [i64; 8])
    requires few { operands ≤ 8 }
    requires moves { ShiftsTo operands axis from to s.now o.old }
    ensures { o.new ≡ shifted_to operands axis from to s.now o.old }
{
    if from == to {
        return;
    }
    for k in 0..operands.min(8) {
        o[k] = moved(o[k], s[k * 64 + axis], from, to);
    }
}

// The block size in force on an axis: from rank 9 only axis 0 is cut.
pub fn width_of(rank: usize, axis: usize, extent: u64, block: u64) -> u64
    ensures { result ≡ width_of rank axis extent block }
{
    if 8 < rank && axis != 0 {
        1
    } else {
        effective(extent, block)
    }
}

// The block sizes in force, written into an array of zeros.
pub fn widths_into<'a>(rank: usize, e: &'a [u64; 64], b: &'a [u64; 64], w: &mut [u64; 64])
    requires rank_bound { rank ≤ 64 }
    requires w_value { w.old ≡ replicate 64 0 }
    ensures { w.new ≡ widths_in rank e.now b.now rank }
{
    for i in 0..rank {
        w[i] = width_of(rank, i, e[i], b[i]);
    }
}

// The block sizes in force.
pub fn widths<'a>(rank: usize, e: &'a [u64; 64], b: &'a [u64; 64]) -> [u64; 64]
    requires { rank ≤ 64 }
    ensures { result ≡ widths_in rank e.now b.now rank }
{
    let mut w = [0u64; 64];
    widths_into(rank, e, b, &mut w);
    w
}

// Where the tiles start that the counters are in, for any block sizes above 0, written into an array of zeros.
pub fn tile_starts_into<'a>(rank: usize, w: &'a [u64; 64], c: &'a [u64; 64], t: &mut [u64; 64])
    requires rank_bound { (rank ≤ 64) × ((i : ℕ) → i < rank → 0 < get_or w.now i 0) }
    requires t_value { t.old ≡ replicate 64 0 }
    ensures { t.new ≡ starts_to w.now c.now rank }
{
    for i in 0..rank {
        t[i] = tile_start(w[i], c[i]);
    }
}

// Where the tiles start that the counters are in.
pub fn tile_starts<'a>(rank: usize, w: &'a [u64; 64], c: &'a [u64; 64]) -> [u64; 64]
    requires { (rank ≤ 64) × ((i : ℕ) → i < rank → 0 < get_or w.now i 0) }
    ensures { result ≡ starts_to w.now c.now rank }
{
    let mut t = [0u64; 64];
    tile_starts_into(rank, w, c, &mut t);
    t
}

// The axes that a carry inside a tile has to look at: those from there on have blocks of 1, so they do not move inside a tile. From rank 9
// on only axis 0 is cut, and none is left.
// Kept: a `for`. `rfind` answers the place before the one that is asked for, or none, and would be mapped twice.
pub fn inner_axes(rank: usize, w: &[u64; 64]) -> usize
    requires { rank ≤ 64 }
    ensures { SingleTo result rank w.now }
{
    for i in (0..rank).rev() {
        if w[i] != 1 {
            return i + 1;
        }
    }
    0
}

// The length of a block, by the extent, the block size in force and the counter of axis 0.
pub fn length_on(rank: usize, extent: u64, width: u64, at: u64) -> u64
    requires { 0 < rank → at < extent }
    ensures { result ≡ length_on rank extent width at }
{
    if rank == 0 {
        return 1;
    }
    width.min(extent - at)
}

// The length of the block at the counters.
pub fn length_of<'a>(rank: usize, e: &'a [u64; 64], w: &'a [u64; 64], c: &'a [u64; 64]) -> u64
    requires { 0 < rank → get_or c.now 0 0 < get_or e.now 0 0 }
    ensures { result ≡ length_of rank e.now w.now c.now }
{
    length_on(rank, e[0], w[0], c[0])
}

// The strides of an axis, one for each operand.
pub fn column(operands: usize, axis: usize, s: &[i64; 512]) -> [i64; 8]
    requires { (operands ≤ 8) × (axis < 64) }
    ensures { result ≡ column_to axis s.now operands }
{
    let mut strides = [0i64; 8];
    for k in 0..operands {
        strides[k] = s[k * 64 + axis];
    }
    strides
}

// Those of axis 0, if there is one.
pub fn firsts(rank: usize, operands: usize, s: &[i64; 512]) -> [i64; 8]
    requires { operands ≤ 8 }
    ensures { result ≡ firsts_in rank operands s.now }
{
    if rank == 0 {
        return [0i64; 8];
    }
    column(operands, 0, s)
}
