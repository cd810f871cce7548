// Cells copied from one lent byte buffer into another, a patch of them at a time. What a copy of cells means, in whatever order they are
// copied, is in specs/.
#![tactic(auto)]

ghost use Rattle.std.specs.Prelude.{◌≡◌};
ghost use Rattle.cells.specs.Copy.{Apart};
ghost use Rattle.cells.specs.Patched.{cells_of, copy_of, LieIn};

pub use bytes::move_bytes;
use packed::{both, copy_down, copy_packed};
pub use patch::Patch;
use widths::copy_by_width;

mod bytes;
mod fours;
mod packed;
mod patch;
mod patches;
mod runs;
mod widths;

// Where an operand's cells of a patch lie: the place of the first cell's first byte, and how many bytes it is, up or down, from a cell to
// the next of its run (`step0`) and from a run to the next (`step1`).
#[derive(Clone, Copy)]
pub struct Side {
    pub first: usize,
    pub step0: i64,
    pub step1: i64,
}

// THE COPY OF A PATCH, from where its cells lie in the source to where they lie in the destination.
// Kept: that a patch lies in its buffers, as a clause, here and in the modules below. It is about both lent buffers, and a struct with the
// destination would hold a `&mut`.
pub fn copy_patch(destination: &mut [u8], source: &[u8], patch: Patch)
    requires lies { LieIn patch destination.old source.now }
    requires apart { Apart patch.width (cells_of patch) }
    ensures { destination.new ≡ copy_of patch (cells_of patch) destination.old source.now }
{
    if patch.n0 == 0 || patch.n1 == 0 {
        return;
    }
    let width = patch.width as i64;
    if both(width, patch.to.step0, patch.from.step0) {
        copy_packed(destination, source, patch);
        return;
    }
    if both(-width, patch.to.step0, patch.from.step0) {
        copy_down(destination, source, patch);
        return;
    }
    copy_by_width(destination, source, patch);
}
