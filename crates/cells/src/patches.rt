// Patches with a width that is a literal at the call, so that a cell is a load and a store, or a few of an odd width.
ghost use Rattle.std.specs.Prelude.{◌≡◌};
ghost use Rattle.cells.specs.Patched.{cells_of, copy_of, ReachIn, ApartIn};

use super::Patch;
use super::fours::copy_four;
use super::runs::copy_run;

// Run after run.
fn copy_runs(destination: &mut [u8], source: &[u8], patch: Patch)
    requires { ReachIn patch destination.old source.now }
    ensures { destination.new ≡ copy_of patch (cells_of patch) destination.old source.now }
{
    for j in 0..patch.n1 {
        copy_run(destination, source, patch, j);
    }
}

// Four runs at once, and those that are left one by one.
fn copy_fours(destination: &mut [u8], source: &[u8], patch: Patch)
    requires { ApartIn patch destination.old source.now }
    ensures { destination.new ≡ copy_of patch (cells_of patch) destination.old source.now }
{
    let fours = patch.n1 / 4;
    for four in 0..fours {
        copy_four(destination, source, patch, 4 * four);
    }
    for j in 4 * fours..patch.n1 {
        copy_run(destination, source, patch, j);
    }
}

// Whether four runs are better copied at once: they are long, and the lines that a run touches share few sets of the cache.
fn crowded(patch: Patch) -> bool {
    16 <= patch.n0
        && (patch.to.step0.unsigned_abs().is_multiple_of(512)
            || patch.from.step0.unsigned_abs().is_multiple_of(512))
}

// A patch, in whichever of the two ways. Inlined, so that the width at a call is known in the loops.
#[inline(always)]
pub fn copy_cells(destination: &mut [u8], source: &[u8], patch: Patch)
    requires { ApartIn patch destination.old source.now }
    ensures { destination.new ≡ copy_of patch (cells_of patch) destination.old source.now }
{
    if crowded(patch) {
        copy_fours(destination, source, patch);
        return;
    }
    copy_runs(destination, source, patch);
}
