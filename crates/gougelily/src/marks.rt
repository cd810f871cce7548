// The repeat mark from C.
ghost use Rattle.std.specs.Prelude.{◌≡◌};
ghost use Rattle.strided.specs.Mark.{mark_number, marked};
ghost use Rattle.strided.specs.Memory.{mark_code};

use super::codes::code;
use mark::repeat_mark;
use strided::Mark;

// The mark as a number: which of the three it is, counted from 0.
fn mark_number(mark: Mark) -> u64
    ensures { result ≡ mark_number mark }
{
    mark as u64
}

// 0 if no two indices of the operand share an offset, 1 if two do, 2 if it is not decided.
#[unsafe(no_mangle)]
pub extern "C" fn gougelily_repeat_mark<'a>(extents: &'a [u64], strides: &'a [i64]) -> i64
    ensures { result ≡ mark_code (marked extents.now strides.now) }
{
    let answer = repeat_mark(extents, strides);
    code(answer, |mark| mark_number(mark) as i64)
}
