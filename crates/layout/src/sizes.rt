// The total and the reach, in 64 bits and without a wrap anywhere: what does not fit is told, exactly what does.
ghost use Rattle.std.specs.Prelude.{◌≡◌, ◌+◌, ◌-◌, ◌*◌, ◌^◌, ◌≤◌, min, leb, nat_abs, length};
ghost use Rattle.strided.specs.Layout.{total, has_zero, reach};
ghost use Rattle.layout.specs.Held.{held, times_of};

// The product, or the cap where that is less.
pub fn mul_cap(a: u64, b: u64, cap: u64) -> u64
    ensures { result ≡ min (a * b) cap }
{
    a.saturating_mul(b).min(cap)
}

// The sum, or the cap where that is less.
pub fn add_cap(a: u64, b: u64, cap: u64) -> u64
    requires { a ≤ cap }
    ensures { result ≡ min (a + b) cap }
{
    a.saturating_add(b).min(cap)
}

// The total with one more extent. A total is told where a u64 holds it.
pub fn times(t: Option<u64>, e: u64) -> Option<u64>
    ensures { result ≡ times_of t e }
{
    if e == 0 {
        return Some(0);
    }
    t?.checked_mul(e)
}

// The product of the extents. The loop goes on where it is over, since a later 0 makes it 0.
pub fn total_len(extents: &[u64]) -> Option<u64>
    ensures { result ≡ held (total extents.now) }
{
    let mut t = Some(1);
    for e in extents {
        t = times(t, *e);
    }
    t
}

// Whether the total is at most the limit. Once the product is above it, only a 0 among the extents that are left brings it back.
pub fn total_at_most(extents: &[u64], limit: u64) -> bool
    ensures { result ≡ leb (total extents.now) limit }
{
    let mut t: u64 = 1;
    for (i, e) in extents.iter().enumerate() {
        match t.checked_mul(*e) {
            Some(x) if x <= limit => t = x,
            _ => return has_zero(&extents[i + 1..]),
        }
    }
    t <= limit
}

// Whether some extent is 0.
pub fn has_zero(extents: &[u64]) -> bool
    ensures { result ≡ has_zero extents.now }
{
    extents.contains(&0)
}

// Above 2^63 - 1 a reach is refused, so that none is counted further than this.
const REACH_CAP: u64 = 1 << 63;

// The reach of an operand, or 2^63 where that is less.
pub fn reach_of<'a>(extents: &'a [u64], strides: &'a [i64]) -> u64
    requires { length strides.now ≡ length extents.now }
    ensures { result ≡ min (reach extents.now strides.now) (2 ^ 63) }
{
    let mut sum: u64 = 0;
    for (extent, stride) in extents.iter().zip(strides) {
        let way = mul_cap(extent.saturating_sub(1), stride.unsigned_abs(), REACH_CAP);
        sum = add_cap(sum, way, REACH_CAP);
    }
    sum
}
