// Numbers in decimal, measured and written.
ghost use Rattle.std.specs.Prelude.{◌≡◌, ◌+◌, ◌≤◌, ◌<◌, List, [], ◌∷◌, ℕ, length};
ghost use Rattle.strided.specs.Digits.{digits_of, signed_of};
ghost use Rattle.writing.specs.Put.{Wrote};

// How many digits a number has.
pub fn u64_len(n: u64) -> usize
    ensures { result ≡ length (digits_of n) }
{
    if n == 0 {
        return 1;
    }
    n.ilog10() as usize + 1
}

// Writes the digits of n at `at`, the last one first, and answers the place behind them.
// Kept: a loop of its own. `itoa::write_digits` writes in place too, but promises the library's `decimal`: a law that this is `digits_of`, and a
// crate more to build on, for ten lines.
pub fn put_u64(out: &mut [u8], at: usize, n: u64) -> usize
    requires { at + length (digits_of n) ≤ length out.old }
    ensures { Wrote out.old at (digits_of n) out.new result }
{
    let end = at + u64_len(n);
    let mut i = end;
    let mut rest = n;
    while rest > 9 {
        i -= 1;
        out[i] = b'0' + (rest % 10) as u8;
        rest /= 10;
    }
    out[at] = b'0' + rest as u8;
    end
}

// One byte.
pub fn put_byte(out: &mut [u8], at: usize, b: u8) -> usize
    requires { at < length out.old }
    ensures { Wrote out.old at (b ∷ []) out.new result }
{
    out[at] = b;
    at + 1
}

// How many bytes a signed number takes.
pub fn i64_len(z: i64) -> usize
    ensures { result ≡ length (signed_of z) }
{
    let k = u64_len(z.unsigned_abs());
    if z < 0 { k + 1 } else { k }
}

// Writes z at `at`, and answers the place behind it.
pub fn put_i64(out: &mut [u8], at: usize, z: i64) -> usize
    requires { at + length (signed_of z) ≤ length out.old }
    ensures { Wrote out.old at (signed_of z) out.new result }
{
    if z < 0 {
        let next = put_byte(out, at, b'-');
        return put_u64(out, next, z.unsigned_abs());
    }
    put_u64(out, at, z.unsigned_abs())
}

// A kind of number, as text.
pub trait Figure: Copy {
    ghost text: { Self → List ℕ };

    // How many bytes it takes: no more than 20.
    fn text_len(self) -> usize
        ensures value { result ≡ length (text self) }
        ensures most { result ≤ 20 };

    // Writes it at `at`, and answers the place behind it.
    fn put(self, out: &mut [u8], at: usize) -> usize
        requires { at + length (text self) ≤ length out.old }
        ensures { Wrote out.old at (text self) out.new result };
}

impl Figure for u64 {
    ghost text = { digits_of };

    fn text_len(self) -> usize {
        u64_len(self)
    }

    fn put(self, out: &mut [u8], at: usize) -> usize {
        put_u64(out, at, self)
    }
}

impl Figure for i64 {
    ghost text = { signed_of };

    fn text_len(self) -> usize {
        i64_len(self)
    }

    fn put(self, out: &mut [u8], at: usize) -> usize {
        put_i64(out, at, self)
    }
}
