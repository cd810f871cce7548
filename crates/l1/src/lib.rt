// The L1 fit of a copy's two operands. One set of the L1 cache holds few lines, and lines whose addresses differ by a multiple of the way
// share a set. An operand revisits the lines along the axes before its reuse axis (its first with a byte stride below a line) on each step
// of that axis, so they must all stay; a block on an axis whose byte stride is a multiple of the way puts that many of them into one set.
// Which axes these are is worked out once: the way may be any multiple of a line, so that each remainder is a division.
#![tactic(auto)]

ghost use Rattle.std.specs.Prelude.{◌≡◌, ◌<◌, ◌≤◌, min, length, get_or, set};
ghost use Rattle.strided.specs.Fit.{fitted};
ghost use Rattle.l1.specs.Live.{top, within, Live, Of, product_by, load_by, enters_by, most_by, chosen_size};

use region::Cut;

mod live;

pub use live::LiveAxes;

impl LiveAxes {
    // Whether axis i brings lines into one set.
    fn alias_at(self, i: usize) -> bool
        requires { i < 64 }
        ensures { result ≡ within self.aliased i }
    {
        (self.aliased >> i) % 2 == 1
    }
}

#[derive(Clone, Copy)]
pub struct L1Sets {
    pub first: LiveAxes,
    pub second: LiveAxes,
}

impl L1Sets {
    // The four numbers that document 01 fixes: the text's record is made of them.
    pub const LINE: u64 = 64;

    pub const CACHE: u64 = 32768;

    pub const WAY: u64 = 4096;

    // The lines of a set that may be live: its eight less a quarter, which replacement and prefetching take.
    pub const LIVE: u64 = 6;

    // More than the live lines of any machine: loads from here on are not told apart.
    const TOP: u64 = 17;

    // The live axes of an operand. Their byte strides are a line at least, so none is 0.
    fn live_axes(cut: Cut, k: usize) -> LiveAxes
        requires { k < length cut.axes.sizes.now }
        ensures { let c = cut.entry in let a = c.axes in Live c.machine.numbers c.bytes.now (get_or a.sizes.now k 0) a.rank k result }
    {
        let size = cut.axes.sizes[k];
        let none = LiveAxes {
            count: 0,
            aliased: 0,
        };
        if size == 0 {
            return none;
        }
        let mut aliased: u64 = 0;
        for i in 0..cut.axes.rank {
            let s = u64::from(cut.bytes[k * 64 + i]);
            if s < cut.machine.numbers.line {
                return LiveAxes { count: i, aliased };
            }
            aliased += u64::from(s.is_multiple_of(cut.machine.numbers.way)) << i;
        }
        none
    }

    fn of(cut: Cut) -> L1Sets
        requires { length cut.axes.sizes.now ≡ 2 }
        ensures { let c = cut.entry in Of c.machine.numbers c.bytes.now c.axes.sizes.now c.axes.rank result }
    {
        let first = Self::live_axes(cut, 0);
        let second = Self::live_axes(cut, 1);
        L1Sets { first, second }
    }

    // The lines of one set that an operand keeps live; 0 if it does not count.
    fn operand_load(live: LiveAxes, blocks: &[u64; 64]) -> u64
        ensures { result ≡ min (product_by live blocks.now live.count) top }
    {
        let mut m = u64::from(0 < live.count);
        // Kept: an index, which is the axis's bit, too.
        for i in 0..live.count {
            if live.alias_at(i) {
                m = m.saturating_mul(blocks[i]).min(Self::TOP);
            }
        }
        m
    }

    // The lines of one set that both operands keep live.
    fn load(self, blocks: &[u64; 64]) -> u64
        ensures { result ≡ min (load_by self blocks.now) top }
    {
        let first = Self::operand_load(self.first, blocks);
        let second = Self::operand_load(self.second, blocks);
        (first + second).min(Self::TOP)
    }

    // The block of axis i is put at x. Answers the load.
    fn set_block(self, blocks: &mut [u64; 64], i: usize, x: u64) -> u64
        requires { i < 64 }
        ensures load { result ≡ min (load_by self (set blocks.old i x)) top }
        ensures blocks { blocks.new ≡ set blocks.old i x }
    {
        blocks[i] = x;
        self.load(blocks)
    }

    // Whether axis i enters a product.
    fn enters(self, i: usize) -> bool
        requires { i < 64 }
        ensures { result ≡ enters_by self i }
    {
        self.first.alias_at(i) || self.second.alias_at(i)
    }

    // The block of axis i is put at the greatest up to `whole` with load at most the live lines, where block 1 has one.
    fn widen(self, live: u64, blocks: &mut [u64; 64], i: usize, whole: u64)
        requires { (i < 64) × ((live < top) × ((1 ≤ whole) × (load_by self (set blocks.old i 1) ≤ live))) }
        ensures { blocks.new ≡ set blocks.old i (most_by live self blocks.old i whole) }
    {
        let mut lo: u64 = 1;
        let mut hi = whole;
        while lo < hi {
            let mid = hi - (hi - lo) / 2;
            if self.set_block(blocks, i, mid) <= live {
                lo = mid;
            } else {
                hi = mid - 1;
            }
        }
        blocks[i] = lo;
    }

    // The blocks with load at most the live lines, or with every block that may be shortened at 1. The outermost axis is shortened first, so
    // that the inner run stays long; blocks only shrink, so that the region still fits.
    pub fn fit(cut: Cut, chosen: usize, blocks: &mut [u64; 64])
        requires { (chosen < 8) × (length cut.axes.sizes.now ≡ 2) }
        ensures { let c = cut.entry in let a = c.axes in blocks.new
            ≡ fitted c.machine.numbers c.bytes.now a.sizes.now a.rank (chosen_size a.strides.now chosen) blocks.old }
    {
        let sets = Self::of(cut);
        let live = cut.machine.numbers.live;
        if sets.load(blocks) <= live {
            return;
        }
        for i in (0..cut.axes.rank).rev() {
            let whole = blocks[i];
            // The order in which a cell of the chosen operand is written never changes: an axis along which it does not move is left alone.
            let moves = cut.axes.strides[chosen * 64 + i] != 0;
            if moves && sets.enters(i) && 1 < whole {
                // A test of its own: it puts the block at 1, which stays where the load is still too great.
                if sets.set_block(blocks, i, 1) <= live {
                    sets.widen(live, blocks, i, whole);
                    return;
                }
            }
        }
    }
}
