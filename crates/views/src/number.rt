// The number of a block, told from a walk's counters: one pass over the axes, the outermost first.
ghost use Rattle.std.specs.Prelude.{◌≡◌, ◌+◌, ◌-◌, ◌*◌, ◌/◌, ◌^◌, ◌<◌, take};
ghost use Rattle.strided.specs.Step.{plan_cut_axes};
ghost use Rattle.views.specs.Number.{block_number};
ghost use Rattle.views.specs.Tally.{tallied, numbered, Room, First, Countable};

use super::arrays;
use advance::tile_start;
use finding::radix::quotient;
use layout::LentPlan;

// Of the axes from some axis on: how many indices the tiles before have, how many this tile has, and the place among these.
#[derive(Clone, Copy)]
pub struct Tally {
    pub before: u64,
    pub size: u64,
    pub place: u64,
}

// The same with one axis more, inside those.
pub(super) fn tally_axis(extent: u64, width: u64, at: u64, tally: Tally) -> Tally
    requires { Room extent width at tally }
    ensures { result ≡ tallied extent width at tally }
{
    // Blocks of 1 are tiles of their own.
    if width == 1 {
        let before = extent * tally.before + at * tally.size;
        return Tally {
            before,
            size: tally.size,
            place: tally.place,
        };
    }
    // The first tile starts at 0.
    if at < width {
        let len = width.min(extent);
        return Tally {
            before: extent * tally.before,
            size: len * tally.size,
            place: len * tally.place + at,
        };
    }
    let start = tile_start(width, at);
    let len = width.min(extent - start);
    let before = extent * tally.before + start * tally.size;
    let size = len * tally.size;
    let place = len * tally.place + (at - start);
    Tally {
        before,
        size,
        place,
    }
}

// The tiles of axis 0 under so many indices of the others. Where there are none, as in the first tile, nothing is divided.
fn tiles_under(extent: u64, width: u64, indices: u64) -> u64
    requires width_nonzero { (0 < width) × (0 < extent) }
    requires indices_bound { ((extent - 1) / width + 1) * indices < 2 ^ 64 }
    ensures { result ≡ ((extent - 1) / width + 1) * indices }
{
    if indices == 0 {
        return 0;
    }
    extent.div_ceil(width) * indices
}

// Axis 0 counts by whole tiles.
pub(super) fn number_first(extent: u64, width: u64, at: u64, tally: Tally) -> u64
    requires { First extent width at tally }
    ensures { result ≡ numbered extent width at tally }
{
    let before = tiles_under(extent, width, tally.before);
    before + quotient(at, width) * tally.size + tally.place
}

// How many blocks of the plan come before the one at the counters `c`.
pub fn number_of(plan: &LentPlan, c: &[u64; 64]) -> u64
    requires { Countable plan.now c.now }
    ensures { result ≡ block_number (plan_cut_axes plan.now) (take plan.now.rank c.now) }
{
    arrays::number_of(plan.rank, plan.extents, plan.blocks, c)
}
