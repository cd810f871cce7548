// Cells of a patch, one by one and run by run. A cell's place is worked out from its two numbers anew each time: the compiler makes of it
// an addition to a pointer, the same whether steps go up or down.
ghost use Rattle.std.specs.Prelude.{◌≡◌, ◌+◌, ◌≤◌, ◌<◌, ◌^◌, pos, ◌+ℤ◌, ◌*ℤ◌, length};
ghost use Rattle.std.specs.Int.{w64};
ghost use Rattle.std.proofs.Common.{SFits};
ghost use Rattle.cells.specs.Copy.{moved};
ghost use Rattle.cells.specs.Patch.{place};
ghost use Rattle.cells.specs.Patched.{copy_of, run_of};
ghost use Rattle.cells.specs.Reaching.{Reaches, CellIn, RunIn};

use super::bytes::move_piece;
use super::{Patch, Side};

// k steps on from z.
fn steps_from(z: i64, step: i64, k: u64) -> i64
    requires k_bound { k < 2 ^ 63 }
    requires sfits { SFits w64 (pos k *ℤ step) }
    requires sfits_2 { SFits w64 (z +ℤ pos k *ℤ step) }
    ensures { result ≡ z +ℤ pos k *ℤ step }
{
    z + (k as i64) * step
}

// The place of cell i of run j.
pub fn place_of(side: Side, i: u64, j: u64) -> usize
    requires { Reaches side i j }
    ensures { result ≡ place side i j }
{
    let run = steps_from(side.first as i64, side.step1, j);
    let cell = steps_from(run, side.step0, i);
    cell as usize
}

// Cell i of run j.
pub fn copy_cell(destination: &mut [u8], source: &[u8], patch: Patch, i: u64, j: u64)
    requires cell_in { CellIn patch.width (length destination.old) patch.to i j }
    requires cell_in_2 { CellIn patch.width (length source.now) patch.from i j }
    ensures { destination.new ≡ moved destination.old (place patch.to i j) source.now (place patch.from i j) patch.width }
{
    let d = place_of(patch.to, i, j);
    let s = place_of(patch.from, i, j);
    let w = patch.width;
    move_piece(&mut destination[d..d + w], &source[s..s + w]);
}

// The cells of run j.
pub fn copy_run(destination: &mut [u8], source: &[u8], patch: Patch, j: u64)
    requires run_in { RunIn patch.width (length destination.old) patch.n0 j patch.to }
    requires run_in_2 { RunIn patch.width (length source.now) patch.n0 j patch.from }
    ensures { destination.new ≡ copy_of patch (run_of patch j) destination.old source.now }
{
    for i in 0..patch.n0 {
        copy_cell(destination, source, patch, i, j);
    }
}
