// Rows of the text: a field for each number and the line's end. The numbers are laid into a lent array from a place on. Those that have no
// place there are read all the same, so that a line with too many numbers is told from one that is not in the form.
ghost use Rattle.std.specs.Prelude.{◌≡◌, ◌+◌, ◌<◌, ◌^◌, length, set};
ghost use Rattle.reading.specs.Rows.{TakesRow};

use super::byte::behind;
use super::number::{Number, field};

// Lays v into place i, if there is one.
pub fn keep<T: Copy>(out: &mut [T], i: usize, v: T)
    ensures { out.new ≡ set out.old i v }
{
    if i < out.len() {
        out[i] = v;
    }
}

// `count` numbers, which are laid from place `from` on.
pub fn read_row_from<'a, T: Number>(
    s: &'a [u8],
    count: usize,
    from: usize,
    out: &mut [T],
) -> Option<&'a [u8]>
    requires { from + length s.now < 2 ^ 64 }
    ensures { TakesRow T.text T.fits s.now count from out.old out.new result }
{
    let mut rest = s;
    for i in 0..count {
        let (v, behind) = field::<T>(rest)?;
        keep(out, from + i, v);
        rest = behind;
    }
    behind(rest, b'\n')
}

// `count` numbers, from place 0 on.
pub fn read_row<'a, T: Number>(s: &'a [u8], count: usize, out: &mut [T]) -> Option<&'a [u8]>
    ensures { TakesRow T.text T.fits s.now count 0 out.old out.new result }
{
    read_row_from(s, count, 0, out)
}
