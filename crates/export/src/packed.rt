// Operands whose cells lie without gaps, axis 0 quickest: the copy is then one move of bytes, and no plan is made for it.
ghost use Rattle.std.specs.Prelude.{◌≡◌, IfSome, false, ◌*◌, ◌/◌, ◌<◌, ◌^◌, pos, length};
ghost use Rattle.strided.specs.Layout.{total};
ghost use Rattle.export.specs.Export.{width_of};
ghost use Rattle.export.specs.Packed.{packed_from, Gapless, Room, Plain};

use super::asked::Asked;
use super::rows::width_of;
use super::width::Width;
use layout::has_zero;

// Whether a stride is another number.
fn differs(stride: i64, n: u64) -> bool
    ensures { result ≡ false → stride ≡ pos n }
{
    u64::try_from(stride) != Ok(n)
}

// How many cells an operand has, if its strides are those of cells without gaps.
fn gapless_row<'a>(extents: &'a [u64], strides: &'a [i64]) -> Option<u64>
    requires cells { (0 < total extents.now) × (total extents.now < 2 ^ 64) }
    requires len { length strides.now ≡ length extents.now }
    ensures { IfSome result (λ n. (n ≡ total extents.now) × (strides.now ≡ packed_from 1 extents.now)) }
{
    let mut n: u64 = 1;
    for (extent, stride) in extents.iter().zip(strides) {
        if differs(*stride, n) {
            return None;
        }
        n *= *extent;
    }
    Some(n)
}

// How many cells there are, where the strides of two operands are those of cells without gaps.
fn gapless(asked: Asked) -> Option<u64>
    requires { (0 < total asked.layout.extents.now) × (length asked.sizes.now ≡ 2) }
    ensures { let a = asked.entry in IfSome result (Gapless a.layout.extents.now a.layout.strides.now) }
{
    let extents = asked.layout.extents;
    gapless_row(extents, asked.layout.row(0).strides)?;
    gapless_row(extents, asked.layout.row(1).strides)
}

// Whether some of so many cells, without gaps from the start on, lie outside a buffer of `len` bytes.
fn beyond(start: i64, cells: u64, width: Width, len: usize) -> bool
    ensures { result ≡ false → Room start cells (len / width.bytes) }
{
    let room = (len / width.bytes) as u64;
    start < 0 || room < cells || room - cells < (start as u64)
}

// Cells without gaps: how many, and their width.
#[derive(Clone, Copy)]
pub struct Cells {
    pub count: u64,
    pub width: Width,
}

// The cells of a copy that is refused nothing and whose cells lie without gaps, in buffers of `to` and `from` bytes. The mark need not be
// asked: where each stride exceeds the reach of those before it, it is no.
pub fn plain_cells(asked: Asked, to: usize, from: usize) -> Option<Cells>
    requires { (to < 2 ^ 63) × (from < 2 ^ 63) }
    ensures { let a = asked.entry in IfSome result (λ c. (c.width.bytes ≡ width_of a.sizes.now)
        × Plain a.layout.extents.now a.sizes.now a.layout.strides.now a.starts.now to from c.count) }
{
    let width = width_of(asked.sizes)?;
    if asked.starts.len() != 2 || has_zero(asked.layout.extents) {
        return None;
    }
    let count = gapless(asked)?;
    if beyond(asked.starts[0], count, width, to) || beyond(asked.starts[1], count, width, from) {
        return None;
    }
    Some(Cells { count, width })
}
