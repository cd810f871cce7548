// The exact reader of the walklist text. A text is taken exactly if it is the rendering of what it says, byte for byte. Its numbers are laid
// into lent arrays while it is read; of a text that is not taken they hold what was read so far. Counts above the planner's limits are
// read too: such a text is in the form, and is refused by another row.
#![tactic(auto)]

ghost use Rattle.reading.specs.Lines.{arrays};
ghost use Rattle.reading.specs.Texts.{ReadsText};

use head::read_head;
use line::read_lines;
use strided::Purpose;

pub mod byte;
pub mod head;
pub mod line;
pub mod number;
pub mod row;

// "at most 16,384 bytes".
pub const MAX_TEXT: usize = 16384;

// What a text says: the purpose, the rank and the number of operands of its layout.
#[derive(Clone, Copy)]
pub struct Said {
    pub purpose: Purpose,
    pub rank: usize,
    pub operands: usize,
}

// Reads a text that is in the form. Extents, sizes and strides are laid into the arrays from place 0 on, the strides flat and dense: operand k's
// stride on axis i at k * rank + i. Numbers that have no place there are read all the same.
pub fn read_text(
    text: &[u8],
    extents: &mut [u64],
    sizes: &mut [u64],
    strides: &mut [i64],
) -> Option<Said>
    ensures { ReadsText text.now
        (arrays extents.old sizes.old strides.old)
        (arrays extents.new sizes.new strides.new)
        result }
{
    if MAX_TEXT < text.len() {
        return None;
    }
    let (said, lines) = read_head(text)?;
    read_lines(lines, said.rank, said.operands, extents, sizes, strides)?;
    Some(said)
}
