// NumPy's descriptions of arrays, from C: a text in our numbers, and our numbers as a text.
ghost use Rattle.strided.specs.Memory.{Fills};
ghost use Rattle.numpy.specs.Numpy.{to_numpy};
ghost use Rattle.numpy.specs.Memory.{described_at, FromNumpyMemory};

use super::codes::length_code;
use numpy::{from_numpy_into, to_numpy};

// What a text says: the size of an element, the rank, and extents and element strides in our order.
#[unsafe(no_mangle)]
pub extern "C" fn gougelily_from_numpy(
    text: &[u8],
    size: &mut [u64; 1],
    rank: &mut [usize; 1],
    extents: &mut [u64; 64],
    strides: &mut [i64; 64],
) -> i64
    ensures { FromNumpyMemory text.now
        (described_at size.old rank.old extents.old strides.old)
        (described_at size.new rank.new extents.new strides.new)
        result }
{
    // The text is read into arrays of the function's own: what is lent stays as it was where a text is refused.
    let mut es = [0u64; 64];
    let mut ss = [0i64; 64];
    let (said_size, said_rank) = served!(from_numpy_into(text, &mut es, &mut ss));
    *size = [said_size];
    *rank = [said_rank];
    *extents = es;
    *strides = ss;
    0
}

// The text of our numbers, with its T line. It answers its length; bytes of the room behind it stay.
#[unsafe(no_mangle)]
pub extern "C" fn gougelily_to_numpy<'a>(
    size: u64,
    extents: &'a [u64],
    strides: &'a [i64],
    room: &mut [u8],
) -> i64
    ensures { Fills (to_numpy size extents.now strides.now room.old) room.new result }
{
    let listed = to_numpy(size, extents, strides, room);
    length_code(listed)
}
