// Bytes and elements: a stride in one and in the other, and the numbers of a description with the axes reversed, handed out or where they stand.
ghost use Rattle.std.specs.Prelude.{◌≡◌, false, map, ◌≤◌, ◌<◌, pos, length, replicate};
ghost use Rattle.strided.specs.Base.{padded};
ghost use Rattle.numpy.specs.Numpy.{reversed, no_multiple, element_stride, stride_out, byte_stride};
ghost use Rattle.std.specs.List.{All, list_any};
ghost use Rattle.numpy.specs.Units.{firsts, Near, Turns};

use layout::Row;
use layout::sizes::mul_cap;
use reading::number::{negative, positive};

// Whether an element stride in bytes leaves 64-bit signed.
// Kept: apart from `Unit::byte_stride`. Row 19 is asked of all strides before one is made, so that an Option of both would be made twice, and the
// second time be a stride that is known to be there.
pub fn stride_out(size: u64, stride: i64) -> bool
    ensures { result ≡ stride_out size stride }
{
    let bytes = mul_cap(stride.unsigned_abs(), size, (1 << 63) + 1);
    if stride < 0 {
        return bytes > 1 << 63;
    }
    bytes >= 1 << 63
}

// What f makes of the numbers, from the last to the first, with zeros behind.
// Kept: that a slice has at most 64 places, here and in the three functions on extents below. Of strides `Row` says it; a type for extents would
// be made and taken apart at each call.
fn turned<T: Copy, F: Fn(T) -> T>(numbers: &[T], zero: T, f: F) -> [T; 64]
    requires len { length numbers.now ≤ 64 }
    requires callable { All (F.pre f) numbers.now }
    ensures { Turns (F.post f) zero numbers.now result }
{
    let n = numbers.len();
    let mut out = [zero; 64];
    for i in 0..n {
        let j = n - 1 - i;
        out[i] = f(numbers[j]);
    }
    out
}

// The numbers from the last to the first, zeros behind them.
pub fn reversed(numbers: &[u64]) -> [u64; 64]
    requires { length numbers.now ≤ 64 }
    ensures { result ≡ padded 64 0 (reversed numbers.now) }
{
    turned(numbers, 0, |e| e)
}

// The element strides of a packed array in our order, written into an array of zeros: 1 on axis 0, and on each axis the product of the extents
// before it.
pub fn packed_strides_into(extents: &[u64], out: &mut [i64; 64])
    requires near { (length extents.now ≤ 64) × (Near extents.now) }
    requires zeros { out.old ≡ replicate 64 (pos 0) }
    ensures { out.new ≡ padded 64 (pos 0) (map pos (firsts 1 extents.now)) }
{
    let n = extents.len();
    let mut step: u64 = 1;
    for i in 0..n {
        out[i] = positive(step);
        step = mul_cap(step, extents[i], 1 << 63);
    }
}

// The same strides, handed out.
pub fn packed_strides(extents: &[u64]) -> [i64; 64]
    requires { (length extents.now ≤ 64) × (Near extents.now) }
    ensures { result ≡ padded 64 (pos 0) (map pos (firsts 1 extents.now)) }
{
    let mut out = [0i64; 64];
    packed_strides_into(extents, &mut out);
    out
}

// The size of an element, which has a byte at least.
#[derive(Clone, Copy)]
pub struct Unit {
    pub size: u64,
    pub ghost some: { 0 < size },
}

impl Unit {
    // Whether a byte stride is no multiple of the size.
    pub fn no_multiple(self, bytes: i64) -> bool
        ensures { result ≡ no_multiple self.size bytes }
    {
        !bytes.unsigned_abs().is_multiple_of(self.size)
    }

    // A byte stride in elements.
    fn element_stride(self, bytes: i64) -> i64
        requires { no_multiple self.size bytes ≡ false }
        ensures { result ≡ element_stride self.size bytes }
    {
        let count = bytes.unsigned_abs() / self.size;
        if bytes < 0 {
            return negative(count);
        }
        positive(count)
    }

    // An element stride in bytes.
    fn byte_stride(self, stride: i64) -> i64
        requires { stride_out self.size stride ≡ false }
        ensures { result ≡ byte_stride self.size stride }
    {
        let bytes = stride.unsigned_abs() * self.size;
        if stride < 0 {
            return negative(bytes);
        }
        positive(bytes)
    }

    // Byte strides in elements, where they stand, with the axes reversed.
    pub fn turn_to_elements(self, strides: &mut [i64])
        requires { list_any (no_multiple self.size) strides.old ≡ false }
        ensures { strides.new ≡ reversed (map (element_stride self.size) strides.old) }
    {
        for place in strides.iter_mut() {
            *place = self.element_stride(*place);
        }
        strides.reverse();
    }

    // Byte strides in elements, with the axes reversed.
    pub fn element_strides(self, row: Row) -> [i64; 64]
        requires { list_any (no_multiple self.size) row.strides.now ≡ false }
        ensures { result ≡ padded 64 (pos 0) (reversed (map (element_stride self.size) row.entry.strides.now)) }
    {
        turned(row.strides, 0, |b| self.element_stride(b))
    }

    // Element strides in bytes, with the axes reversed.
    pub fn byte_strides(self, row: Row) -> [i64; 64]
        requires { list_any (stride_out self.size) row.strides.now ≡ false }
        ensures { result ≡ padded 64 (pos 0) (reversed (map (byte_stride self.size) row.entry.strides.now)) }
    {
        turned(row.strides, 0, |z| self.byte_stride(z))
    }
}
