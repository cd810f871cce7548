// Numbers of the text: decimal, no leading zero, no "-0", within 64 bits. Each function answers the number that stands in front, with
// what is behind it, or that none does. "None" is exact: no number of its kind has the bytes there as its text.
ghost use Rattle.std.specs.Prelude.{◌≡◌, ◌-◌, ◌<◌, ◌≤◌, ◌^◌, pos, negsuc, List, ℕ};
ghost use Rattle.strided.specs.Digits.{digits_of, signed_of};
ghost use Rattle.strided.specs.Text.{FitU, FitI};
ghost use Rattle.laws.specs.Text.Numbers.{digits_once, signed_once};
ghost use Rattle.laws.specs.Text.Once.{Once, celled};
ghost use Rattle.reading.specs.Here.{Finds};
ghost use Rattle.reading.specs.Numbers.{Reads, ReadsSigned, ReadsMore, Minus, Plus};

use super::byte::{behind, digit};

// Goes on behind digits that say `first`.
fn read_more(s: &[u8], first: u64) -> Option<(u64, &[u8])>
    ensures { ReadsMore first s.now result }
{
    let mut n = first;
    let mut rest = s;
    while let Some((d, behind)) = digit(rest) {
        // Kept: a test, and nothing checked. `checked_mul` is a multiplication of 128 bits, and each `?` clears its answer, at each digit.
        if n > (u64::MAX - d) / 10 {
            return None;
        }
        n = n * 10 + d;
        rest = behind;
    }
    Some((n, rest))
}

// The number in front. A `0` stands alone.
// Kept: digit by digit, and not by `parse`: the form is narrower, with no `+` and no leading 0, and a number ends where its digits do.
// Whether a second digit follows is tested first: a branch on the digit itself is badly predicted in lists of indices 0 and 1.
pub fn read_u64(s: &[u8]) -> Option<(u64, &[u8])>
    ensures { Reads digits_of s.now result }
{
    let (first, rest) = digit(s)?;
    let Some((second, behind)) = digit(rest) else {
        return Some((first, rest));
    };
    if first == 0 {
        return None;
    }
    read_more(behind, first * 10 + second)
}

// The number below 0 of this size, and the one from 0 on.
pub fn negative(n: u64) -> i64
    requires n_nonzero { 0 < n }
    requires n_bound { n ≤ 2 ^ 63 }
    ensures { result ≡ negsuc (n - 1) }
{
    -1 - ((n - 1) as i64)
}

pub fn positive(n: u64) -> i64
    requires { n < 2 ^ 63 }
    ensures { result ≡ pos n }
{
    n as i64
}

// A size behind the sign `-`: 1 to 2^63.
fn minus(n: u64) -> Option<i64>
    ensures { Minus n result }
{
    if n == 0 {
        return None;
    }
    0i64.checked_sub_unsigned(n)
}

// A size with no sign: below 2^63.
fn plus(n: u64) -> Option<i64>
    ensures { Plus n result }
{
    i64::try_from(n).ok()
}

// The number with a sign in front.
pub fn read_i64(s: &[u8]) -> Option<(i64, &[u8])>
    ensures { ReadsSigned signed_of s.now result }
{
    match behind(s, b'-') {
        Some(size) => {
            let (n, rest) = read_u64(size)?;
            Some((minus(n)?, rest))
        }
        None => {
            let (n, rest) = read_u64(s)?;
            Some((plus(n)?, rest))
        }
    }
}

// A kind of number of the text. No text is that of two numbers.
pub trait Number: Copy {
    ghost text: { Self → List ℕ };

    ghost fits: { Self → Type 0 };

    // The number in front.
    fn read(s: &[u8]) -> Option<(Self, &[u8])>
        ensures { Finds text fits s.now result };

    ghost once: { Once text };
}

impl Number for u64 {
    ghost text = { digits_of };

    ghost fits = { FitU };

    ghost once = { digits_once };

    fn read(s: &[u8]) -> Option<(u64, &[u8])> {
        read_u64(s)
    }
}

impl Number for i64 {
    ghost text = { signed_of };

    ghost fits = { FitI };

    ghost once = { signed_once };

    fn read(s: &[u8]) -> Option<(i64, &[u8])> {
        read_i64(s)
    }
}

// A comma and a number.
pub fn field<T: Number>(s: &[u8]) -> Option<(T, &[u8])>
    ensures { Finds (celled T.text) T.fits s.now result }
{
    T::read(behind(s, b',')?)
}
