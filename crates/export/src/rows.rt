// Rows 16, 17 and 18: what a copy is refused for beside the rows of planning and of a walk's beginning.
ghost use Rattle.std.specs.Prelude.{◌≡◌, ◌/◌, ◌<◌, pos, length, get_or};
ghost use Rattle.strided.specs.Layout.{stride_row};
ghost use Rattle.strided.specs.Refusals.{refused_by};
ghost use Rattle.span.specs.Span.{outside};
ghost use Rattle.export.specs.Export.{row18, cell_rows};
ghost use Rattle.export.specs.Width.{Found, Passed};

use super::asked::Asked;
use super::width::Width;
use mark::repeat_mark;
use span::cell_outside;
use strided::{Mark, Refusal};

// Row 16: the width of the cells, where it does not apply.
pub fn width_of(sizes: &[u64]) -> Option<Width>
    ensures { Found sizes.now result }
{
    if sizes.len() != 2 || sizes[0] != sizes[1] || sizes[0] == 0 || 16 < sizes[0] {
        return None;
    }
    Some(Width {
        bytes: sizes[0] as usize,
    })
}

// Row 17 of operand k: whether some cell of it lies outside a buffer of `len` bytes, which has room for so many cells.
fn outside_at(asked: Asked, k: usize, width: Width, len: usize) -> bool
    requires { (k < length asked.sizes.now) × (length asked.starts.now ≡ length asked.sizes.now) }
    ensures { let a = asked.entry in result ≡ outside a.layout.extents.now (stride_row a.layout.strides.now (length a.layout.extents.now) k)
        (get_or a.starts.now k (pos 0)) (len / width.bytes) }
{
    cell_outside(
        asked.layout.extents,
        asked.layout.row(k).strides,
        asked.starts[k],
        (len / width.bytes) as u64,
    )
}

// Row 18.
// Kept: an arm for each mark. Behind `!matches!(.., Ok(Mark::No))` a proof is not told that the mark is another one.
fn repeats(asked: Asked) -> bool
    ensures { let a = asked.entry in result ≡ (row18 a.layout.extents.now a.layout.strides.now).applies }
{
    match repeat_mark(asked.layout.extents, asked.layout.row(0).strides) {
        Ok(Mark::No) => false,
        Ok(Mark::Yes) => true,
        Ok(Mark::Undecided) => true,
        Err(_) => true,
    }
}

// Rows 16, 17 and 18, where there is a start for each operand: the width of the cells, if none applies. `to` and `from` are the lengths of the
// buffers.
pub fn check_cells(asked: Asked, to: usize, from: usize) -> Result<Width, Refusal>
    requires { length asked.starts.now ≡ length asked.sizes.now }
    ensures { let a = asked.entry in Passed (refused_by (cell_rows a.layout.extents.now a.sizes.now a.layout.strides.now a.starts.now to from)) a.sizes.now result }
{
    let width = width_of(asked.sizes).ok_or(Refusal::CopySizes)?;
    if outside_at(asked, 0, width, to) || outside_at(asked, 1, width, from) {
        return Err(Refusal::Buffer);
    }
    if repeats(asked) {
        return Err(Refusal::Repeats);
    }
    Ok(width)
}
