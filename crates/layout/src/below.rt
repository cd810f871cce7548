// Whether numbers lie below a power of two, signed ones by their size, or are 0 alone. The bits that tell are gathered over all places, and
// looked at once, behind the loop: so the compiler takes several places in one step. And numbers that have their bounds beside them: whether
// each is below its own, and the first that is.
ghost use Rattle.std.specs.Prelude.{◌≡◌, Bool, List, ℕ, ◌^◌, ◌<◌, nat_abs, length, eqb};
ghost use Rattle.std.specs.List.{list_all};
ghost use Rattle.strided.specs.Layout.{within};
ghost use Rattle.strided.specs.Step.{blank, blank_z};
ghost use Rattle.layout.specs.Near.{all_below, blank_all, blank_z_all};
ghost use Rattle.layout.specs.Below.{FirstBelow};

// A kind of number, with or without a sign.
pub trait Number: Copy {
    // Its size.
    ghost size: { Self → ℕ };

    // Whether numbers are 0 alone.
    ghost blank: { List Self → Bool };

    fn size(self) -> u64
        ensures { result ≡ size self };

    // Its bits, which are 0 for 0 alone, as its size is, with no sign to take off.
    fn bits(self) -> u64
        ensures { eqb result 0 ≡ eqb (size self) 0 };

    ghost none: { (xs : List Self) → list_all (λ x. eqb (size x) 0) xs ≡ blank xs };
}

impl Number for u64 {
    ghost size = { λ n. n };

    ghost blank = { blank };

    ghost none = { blank_all };

    fn size(self) -> u64 {
        self
    }

    fn bits(self) -> u64 {
        self
    }
}

impl Number for i64 {
    ghost size = { nat_abs };

    ghost blank = { blank_z };

    ghost none = { blank_z_all };

    fn size(self) -> u64 {
        self.unsigned_abs()
    }

    fn bits(self) -> u64 {
        self.cast_unsigned()
    }
}

// Whether each number's size is below 2^bits.
pub fn all_below<N: Number>(numbers: &[N], bits: u64) -> bool
    requires { bits < 64 }
    ensures { result ≡ all_below N.size (2 ^ bits) numbers.now }
{
    let mut above: u64 = 0;
    for n in numbers {
        above |= n.size() >> bits;
    }
    above == 0
}

// The bits of numbers, gathered.
// The hint: compiled as a function of its own, joining or leaving at 10 x 10 takes 6,374 instructions for 5,466.
#[inline(always)]
fn bits_of<N: Number>(numbers: &[N]) -> u64
    ensures { eqb result 0 ≡ list_all (λ x. eqb (N.size x) 0) numbers.now }
{
    let mut seen: u64 = 0;
    for n in numbers {
        seen |= n.bits();
    }
    seen
}

// How many numbers are looked at in a row: so many that the compiler makes no turns of them.
const ROW: usize = 32;

// Whether each number is 0. Many go row by row; the last row ends with them, and may begin in the one before it.
// Kept: rows. In one loop over all of them joining or leaving at 10 x 10 takes 6,374 instructions for 5,466; with rows of 24 it takes 5,746, of 64
// 5,578.
pub fn all_zero<N: Number>(numbers: &[N]) -> bool
    ensures { result ≡ N.blank numbers.now }
{
    let count = numbers.len();
    if count < ROW {
        return bits_of(numbers) == 0;
    }
    let mut seen = bits_of(&numbers[count - ROW..]);
    for i in 0..(count - 1) / ROW {
        let from = i * ROW;
        seen |= bits_of(&numbers[from..from + ROW]);
    }
    seen == 0
}

// Whether an index has a place for each extent, and lies below it.
pub fn within(extents: &[u64], index: &[u64]) -> bool
    ensures { result ≡ within extents.now index.now }
{
    index.len() == extents.len() && index.iter().zip(extents).all(|(at, extent)| at < extent)
}

// The first of the places at which a number is below its bound.
pub fn first_below<'a>(numbers: &'a [u64], bounds: &'a [u64]) -> Option<usize>
    requires { length numbers.now ≡ length bounds.now }
    ensures { FirstBelow numbers.now bounds.now result }
{
    numbers.iter().zip(bounds).position(|(n, bound)| n < bound)
}
