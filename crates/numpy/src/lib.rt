// BYTE STRIDES FROM PYTHON TOOLS: a description of an array in the NumPy array interface's words, as text, becomes our extents and element
// strides, and the reverse. NumPy's last axis is our axis 0. A text is read and judged before anything is handed out.
#![tactic(auto)]

ghost use Rattle.std.specs.Prelude.{◌≡◌, pos, length, replicate};
ghost use Rattle.numpy.specs.Numpy.{FromNumpy, to_numpy};
ghost use Rattle.numpy.specs.Readers.{ShapeAt, StridesAt, ZerosBehind, FromPacked, FromGiven, joined};

use back::{Spelling, list, strides_out};
use layout::{Row, rank_over, strides_wrong};
use lines::{Said, read_description};
use rows::{given_wrong, packed_wrong};
use strided::Refusal;
use units::{Unit, packed_strides_into, reversed};

pub mod back;
pub mod lines;
pub mod rows;
pub mod units;

// What a description says: the size of an element in bytes, and extents and element strides in our order. Places behind the rank are 0.
#[derive(Clone, Copy)]
pub struct Described {
    pub size: u64,
    pub rank: usize,
    pub extents: [u64; 64],
    pub strides: [i64; 64],
}

// Kept: here and below, `rank` beside the arrays. Row 19 comes before row 1 and is asked of all numbers, so a rank travels on that the arrays
// have no places for, and no slice of them says it.
// Kept: two ends that are alike. Row 1 stands between what differs, row 19 and the strides.
// Kept: arrays that are lent, and answers with none in them. An `Err` beside arrays has them cleared and copied wherever the two meet.

// A description without T, whose shape stands in front of `row` and, as far as there are places, in `extents`. There it is reversed, and the
// strides are written into zeros.
fn from_packed(
    row: &[u8],
    size: u64,
    rank: usize,
    extents: &mut [u64; 64],
    strides: &mut [i64; 64],
) -> Result<(u64, usize), Refusal>
    requires shape { ShapeAt row.now rank extents.old }
    requires zeros { ZerosBehind 0 rank extents.old × (strides.old ≡ replicate 64 (pos 0)) }
    ensures { FromPacked row.now size rank extents.old (joined result extents.new strides.new) }
{
    if packed_wrong(row, rank, size) {
        return Err(Refusal::ByteStrides);
    }
    if rank_over(rank) {
        return Err(Refusal::Rank);
    }
    extents[..rank].reverse();
    packed_strides_into(&extents[..rank], strides);
    Ok((size, rank))
}

// A description with T, whose byte strides stand in front of `row` and, as far as there are places, in `strides`, with the shape in `extents`.
// There both are reversed.
fn from_given(
    row: &[u8],
    size: u64,
    rank: usize,
    extents: &mut [u64; 64],
    strides: &mut [i64; 64],
) -> Result<(u64, usize), Refusal>
    requires strides { StridesAt row.now rank strides.old }
    requires zeros { ZerosBehind 0 rank extents.old × ZerosBehind (pos 0) rank strides.old }
    ensures { FromGiven row.now size rank extents.old strides.old (joined result extents.new strides.new) }
{
    if given_wrong(row, rank, size) {
        return Err(Refusal::ByteStrides);
    }
    if rank_over(rank) {
        return Err(Refusal::Rank);
    }
    extents[..rank].reverse();
    let unit = Unit { size };
    unit.turn_to_elements(&mut strides[..rank]);
    Ok((size, rank))
}

// FROM NUMPY, into arrays of zeros: rows 12, 19 and 1, then the numbers. Size and rank are answered. Where it refuses, the arrays may hold what was
// read so far.
pub fn from_numpy_into(
    text: &[u8],
    extents: &mut [u64; 64],
    strides: &mut [i64; 64],
) -> Result<(u64, usize), Refusal>
    requires zeros { (extents.old ≡ replicate 64 0) × (strides.old ≡ replicate 64 (pos 0)) }
    ensures { FromNumpy text.now (joined result extents.new strides.new) }
{
    match read_description(text, extents, strides) {
        None => Err(Refusal::Form),
        Some(Said::Packed(size, rank, row)) => from_packed(row, size, rank, extents, strides),
        Some(Said::Given(size, rank, row)) => from_given(row, size, rank, extents, strides),
    }
}

// FROM NUMPY: the same, handed out.
pub fn from_numpy(text: &[u8]) -> Result<Described, Refusal>
    ensures { FromNumpy text.now result }
{
    let mut extents = [0u64; 64];
    let mut strides = [0i64; 64];
    let (size, rank) = from_numpy_into(text, &mut extents, &mut strides)?;
    Ok(Described {
        size,
        rank,
        extents,
        strides,
    })
}

// TO NUMPY: rows 19, 1, 3 and 14, then the text, of which it answers the length. It is measured before it is written, so a refusal leaves
// every lent byte.
pub fn to_numpy<'a>(
    size: u64,
    extents: &'a [u64],
    strides: &'a [i64],
    room: &mut [u8],
) -> Result<usize, Refusal>
    ensures { record { answer = result; room = room.new } ≡ to_numpy size extents.now strides.now room.old }
{
    let rank = extents.len();
    if strides_out(size, strides) {
        return Err(Refusal::ByteStrides);
    }
    if rank_over(rank) {
        return Err(Refusal::Rank);
    }
    if strides_wrong(rank, 1, strides) {
        return Err(Refusal::StrideCount);
    }
    let shape = reversed(extents);
    let unit = Unit { size };
    let bytes = unit.byte_strides(Row { strides });
    let said = Spelling {
        size,
        shape: &shape[..rank],
        bytes: &bytes[..rank],
    };
    list(said, room)
}
