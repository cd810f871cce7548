// The offsets of a layout of at most 256 cells, listed in the order of its indices: one array, and nothing is merged.
ghost use Rattle.std.specs.Prelude.{◌≡◌, ◌↔◌, true, ◌-◌, ◌*◌, ◌<◌, ◌≤◌, length, take};
ghost use Rattle.strided.specs.Layout.{total};
ghost use Rattle.strided.specs.Mark.{Shared};
ghost use Rattle.distinct.specs.Lists.{Low, Looked};
ghost use Rattle.distinct.specs.Copies.{Spreading};

use super::Operand;

// Whether x stands in the list.
// Kept: a loop that looks at every place, where the library's `contains` serves: a mark of 8 x 8 takes 290 ns by it, and 420 to 480 by `contains`,
// which branches at each place (253 to 398 by a loop that does, as the linker lays it).
fn holds(list: &[u64], x: u64) -> bool
    ensures { Looked list.now (length list.now) x result }
{
    let mut found = false;
    for y in list {
        found |= *y == x;
    }
    found
}

// `extent` copies of the first n, one behind the other, each `size` above the one before it; false where two share a number. Two copies
// share one exactly if a later copy shares one with the first, so that only the first is looked at.
// Kept: n says how far an array of fixed memory is filled, and that it and `extent` are above 0 is a fact of one call, for which a type would
// be no plainer.
fn extend(list: &mut [u64; 256], n: usize, extent: usize, size: u64) -> bool
    requires { (0 < n) × (0 < extent) × (n * extent ≤ 256) × Low list.old n ((extent - 1) * size) }
    ensures { Spreading (take n list.old) extent size result (take (n * extent) list.new) }
{
    for j in n..n * extent {
        let x = list[j - n] + size;
        if holds(&list[..n], x) {
            return false;
        }
        list[j] = x;
    }
    true
}

// Whether two indices share an offset, the total being at most 256. The list is extended over the axes, the last first.
// Kept: extent and stride by the axis's number, here and in `many_repeat`: what holds in the loop is about the axes from i on, and a `zip` of the
// two slices would be numbered only to be turned round: no plainer.
pub fn few_repeat(operand: Operand) -> bool
    requires { total operand.extents.now ≤ 256 }
    ensures { (result ≡ true) ↔ Shared operand.entry.extents.now operand.entry.strides.now }
{
    let mut list = [0u64; 256];
    let mut n: usize = 1;
    for i in (0..operand.extents.len()).rev() {
        let extent = operand.extents[i] as usize;
        if !extend(&mut list, n, extent, operand.strides[i].unsigned_abs()) {
            return true;
        }
        n *= extent;
    }
    false
}
