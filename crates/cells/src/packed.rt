// Runs whose cells follow each other without a gap in both buffers: their bytes are moved at once, and a whole patch where its runs follow
// each other too.
ghost use Rattle.std.specs.Prelude.{◌≡◌, true, ◌-◌, ◌<◌, ◌^◌, pos, neg_ℤ};
ghost use Rattle.cells.specs.Copy.{Apart};
ghost use Rattle.cells.specs.Patched.{cells_of, copy_of, LieIn, ReachIn, Packed, PackedDown};
ghost use Rattle.cells.specs.Reaching.{Reaches, turned};

use super::bytes::move_bytes;
use super::runs::place_of;
use super::{Patch, Side};

// Whether two steps are both this one.
pub fn both(step: i64, a: i64, b: i64) -> bool
    ensures { result ≡ true → (a ≡ step) × (b ≡ step) }
{
    a == step && b == step
}

// Run after run, each at once.
fn move_runs(destination: &mut [u8], source: &[u8], patch: Patch)
    requires packed { Packed patch }
    requires reach { ReachIn patch destination.old source.now }
    ensures { destination.new ≡ copy_of patch (cells_of patch) destination.old source.now }
{
    let bytes = (patch.n0 as usize) * patch.width;
    for j in 0..patch.n1 {
        let d = place_of(patch.to, 0, j);
        let s = place_of(patch.from, 0, j);
        move_bytes(&mut destination[d..d + bytes], &source[s..s + bytes]);
    }
}

// A patch whose runs have no gaps.
pub fn copy_packed(destination: &mut [u8], source: &[u8], patch: Patch)
    requires packed { Packed patch }
    requires reach { ReachIn patch destination.old source.now }
    ensures { destination.new ≡ copy_of patch (cells_of patch) destination.old source.now }
{
    let bytes = (patch.n0 as usize) * patch.width;
    if both(bytes as i64, patch.to.step1, patch.from.step1) {
        let all = bytes * (patch.n1 as usize);
        let d = patch.to.first;
        let s = patch.from.first;
        move_bytes(&mut destination[d..d + all], &source[s..s + all]);
        return;
    }
    move_runs(destination, source, patch);
}

// A side whose runs go down, taken from the last cell of each run on.
fn upwards(side: Side, n0: u64, width: usize) -> Side
    requires n0_nonzero { (0 < n0) × (width < 2 ^ 63) }
    requires reaches { Reaches side (n0 - 1) 0 }
    ensures { result ≡ turned n0 width side }
{
    Side {
        first: place_of(side, n0 - 1, 0),
        step0: width as i64,
        step1: side.step1,
    }
}

// A patch whose runs have no gaps and go down on both sides.
pub fn copy_down(destination: &mut [u8], source: &[u8], patch: Patch)
    requires packed { PackedDown patch }
    requires lies { LieIn patch destination.old source.now }
    requires apart { Apart patch.width (cells_of patch) }
    ensures { destination.new ≡ copy_of patch (cells_of patch) destination.old source.now }
{
    let to = upwards(patch.to, patch.n0, patch.width);
    let from = upwards(patch.from, patch.n0, patch.width);
    let up = Patch {
        n0: patch.n0,
        n1: patch.n1,
        width: patch.width,
        to,
        from,
    };
    copy_packed(destination, source, up);
}
