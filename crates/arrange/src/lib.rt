// Axes put into another order. Planning puts a layout's axes into the order that they are fused in, and dropping the axes of extent 1 is
// an order too: the order of those that stay. What is written goes into lent arrays, since a table of strides handed back by value would
// be copied.
#![tactic(auto)]

ghost use Rattle.std.specs.Prelude.{◌≡◌, true, List, ℕ, ◌+◌, ◌<◌, ◌≤◌, length, get_or, drop, replicate, pos};
ghost use Rattle.strided.specs.Base.{padded};
ghost use Rattle.strided.specs.Order.{pick};
ghost use Rattle.strided.specs.Step.{blank};
ghost use Rattle.laws.specs.Fuse.Arrays.{pick_rows};
ghost use Rattle.arrange.specs.Axes.{Named, given};

use layout::Rows;

// ---- the order

// Which axis stands at each place: a lent order names it, or each axis stands at its own place.
pub trait Order: Copy {
    // The axes' numbers, place by place.
    ghost names: { Self → List ℕ };

    fn len(self) -> usize
        ensures { result ≡ length (names self) };

    // The axis at a place.
    fn axis(self, place: usize) -> usize
        requires { place < length (names self) }
        ensures { result ≡ get_or (names self) place 0 };
}

impl<'a> Order for &'a [usize] {
    ghost names = { λ o. o.now };

    fn len(self) -> usize {
        <[usize]>::len(self)
    }

    fn axis(self, place: usize) -> usize {
        self[place]
    }
}

// A plan's axes have numbers below 64.
impl<'a> Order for &'a [u8] {
    ghost names = { λ o. o.now };

    fn len(self) -> usize {
        <[u8]>::len(self)
    }

    fn axis(self, place: usize) -> usize {
        usize::from(self[place])
    }
}

// As many axes as are given, each at its own place.
#[derive(Clone, Copy)]
pub struct AsGiven {
    pub rank: usize,
}

impl Order for AsGiven {
    ghost names = { λ g. given g.rank };

    fn len(self) -> usize {
        self.rank
    }

    fn axis(self, place: usize) -> usize {
        place
    }
}

// The axes that an order names, at most 64, and the strides of at most 8 operands that are read along them.
// It is no Copy: a ghost field that speaks of a type parameter has none derived.
#[derive(Drop)]
pub struct Ordered<'a, O: Order> {
    pub rows: Rows<'a>,
    pub order: O,
    pub ghost named: { Named rows.pitch rows.operands (O.names order) },
}

// ---- what it names

// Kept: arrays that are lent as zeros, here and below: who lends one has cleared it already. A plan of 10 x 10 takes 146 ns for 106 where they
// are cleared again (fuse).

// The elements of xs that the order names, written into an array that is 0 behind its length.
pub fn pick_into<O: Order>(xs: &[u64], order: O, out: &mut [u64; 64])
    requires few { length (O.names order) ≤ 64 }
    requires inside { (j : ℕ) → j < length (O.names order) → get_or (O.names order) j 0 < length xs.now }
    requires out { blank (drop (length (O.names order)) out.old) ≡ true }
    ensures { out.new ≡ padded 64 0 (pick 0 xs.now (O.names order)) }
{
    for j in 0..order.len() {
        out[j] = xs[order.axis(j)];
    }
}

// Operand k's strides, put into the table behind those of the operands before it.
fn put_row<O: Order>(table: &mut [i64; 512], k: usize, axes: &Ordered<O>)
    requires table { let a = axes.now in table.old ≡ padded 512 (pos 0) (pick_rows a.rows.strides.now a.rows.pitch (O.names a.order) k) }
    requires operand { k < axes.now.rows.operands }
    ensures { let a = axes.now in table.new ≡ padded 512 (pos 0) (pick_rows a.rows.strides.now a.rows.pitch (O.names a.order) (k + 1)) }
{
    let from = k * axes.rows.pitch;
    let to = k * 64;
    for j in 0..axes.order.len() {
        table[to + j] = axes.rows.strides[from + axes.order.axis(j)];
    }
}

// The strides of the axes that the order names, written into a table of zeros, operand k's from k * 64 on.
pub fn pick_strides_into<O: Order>(axes: Ordered<O>, table: &mut [i64; 512])
    requires { table.old ≡ replicate 512 (pos 0) }
    ensures { let a = axes.entry in table.new ≡ padded 512 (pos 0) (pick_rows a.rows.strides.now a.rows.pitch (O.names a.order) a.rows.operands) }
{
    for k in 0..axes.rows.operands {
        put_row(table, k, &axes);
    }
}
