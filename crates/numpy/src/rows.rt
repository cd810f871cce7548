// Row 19 on the numbers of a text, whatever the rank. They are read where they stand: a text can have thousands, and none needs a place.
ghost use Rattle.std.specs.Prelude.{◌<◌};
ghost use Rattle.numpy.specs.Readers.{Folds, PackedWrong, GivenWrong, Peaks, SomeNoMultiple};

use super::units::Unit;
use layout::sizes::mul_cap;
use reading::number::{Number, field};

// What f makes of the `count` numbers in front, one after the other. Where there are not so many it is told of those that are.
fn fold_row<T: Number, A: Copy, F: Fn(A, T) -> A>(s: &[u8], count: usize, first: A, f: F) -> A
    requires { F.IsAlwaysCallable f }
    ensures { Folds T.text T.fits (λ a v b. F.post f a v b) s.now count first result }
{
    let mut a = first;
    let mut rest = s;
    for _ in 0..count {
        let Some(read) = field::<T>(rest) else {
            return a;
        };
        a = f(a, read.0);
        rest = read.1;
    }
    a
}

// The greatest packed byte stride of the shape in front, below 2^63; from there on it may be told less, but not below 2^63.
// One more axis behind makes each stride before it so many times greater, and has the size itself.
fn peak(s: &[u8], count: usize, size: u64) -> u64
    ensures { Peaks s.now count size result }
{
    fold_row(s, count, 0, |greatest: u64, e: u64| {
        mul_cap(greatest, e, 1 << 63).max(size)
    })
}

// Row 19 of a packed description.
pub fn packed_wrong(s: &[u8], count: usize, size: u64) -> bool
    ensures { PackedWrong s.now count size result }
{
    size == 0 || peak(s, count, size) > i64::MAX as u64
}

// Whether some byte stride in front is no multiple of the size.
fn some_no_multiple(s: &[u8], count: usize, unit: Unit) -> bool
    ensures { SomeNoMultiple s.now count unit.size result }
{
    fold_row(s, count, false, |wrong: bool, b: i64| {
        wrong | unit.no_multiple(b)
    })
}

// Row 19 of a description with T.
pub fn given_wrong(s: &[u8], count: usize, size: u64) -> bool
    ensures { GivenWrong s.now count size result }
{
    size == 0 || some_no_multiple(s, count, Unit { size })
}
