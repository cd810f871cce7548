// Four runs at once: for each i the cells of four neighbouring runs. Where the lines of one run share few sets of the cache, the next run
// finds them gone; so each line is used for four cells while it is there. It is another order of the cells, and gives the same bytes.
ghost use Rattle.std.specs.Prelude.{◌≡◌, ◌+◌, ◌<◌, ◌^◌, length};
ghost use Rattle.cells.specs.Copy.{Apart};
ghost use Rattle.cells.specs.Patched.{copy_of, runs_of, across_of};
ghost use Rattle.cells.specs.Reaching.{RunsIn};

use super::Patch;
use super::runs::copy_cell;

// Cell i of each of the four runs from j on.
fn copy_across(destination: &mut [u8], source: &[u8], patch: Patch, i: u64, j: u64)
    requires j_bound { j + 3 < 2 ^ 64 }
    requires runs_in { RunsIn patch.width (length destination.old) (i + 1) j 4 patch.to }
    requires runs_in_2 { RunsIn patch.width (length source.now) (i + 1) j 4 patch.from }
    ensures { destination.new ≡ copy_of patch (across_of patch j 4 i) destination.old source.now }
{
    copy_cell(destination, source, patch, i, j);
    copy_cell(destination, source, patch, i, j + 1);
    copy_cell(destination, source, patch, i, j + 2);
    copy_cell(destination, source, patch, i, j + 3);
}

// The cells of each of the four runs from j on.
pub fn copy_four(destination: &mut [u8], source: &[u8], patch: Patch, j: u64)
    requires j_bound { j + 3 < 2 ^ 64 }
    requires runs_in { RunsIn patch.width (length destination.old) patch.n0 j 4 patch.to }
    requires runs_in_2 { RunsIn patch.width (length source.now) patch.n0 j 4 patch.from }
    requires apart { Apart patch.width (runs_of patch j 4) }
    ensures { destination.new ≡ copy_of patch (runs_of patch j 4) destination.old source.now }
{
    for i in 0..patch.n0 {
        copy_across(destination, source, patch, i, j);
    }
}
