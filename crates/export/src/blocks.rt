// The walk of a plan, each stretch of it copied as a patch of cells. Nothing is checked here.
ghost use Rattle.std.specs.Prelude.{◌≡◌, length};
ghost use Rattle.strided.specs.Begin.{started};
ghost use Rattle.cells.specs.Copy.{copied};
ghost use Rattle.export.specs.Blocks.{walk_cells, starts_of, Copyable};

use super::patch::copy_stretch;
use super::width::Width;
use layout::LentPlan;
use strided::Walk;
use walker::{Blocks, Course};

// A stretch has at most so many blocks: a patch has fewer than 2^63.
const MOST: u64 = 1 << 62;

// THE CELLS OF A PLAN'S BLOCKS, in the plan's order: from the state at which the walk of its two operands has begun, to
// the end.
pub fn copy_blocks(plan: &LentPlan, width: Width, walk: Walk, destination: &mut [u8], source: &[u8])
    requires copyable { Copyable plan.now (starts_of walk) width.bytes (length destination.old) (length source.now) }
    requires walk_value { walk ≡ started plan.now (starts_of walk) }
    ensures { destination.new ≡ copied width.bytes (walk_cells width.bytes plan.now (starts_of walk)) destination.old source.now }
{
    if walk.ended {
        return;
    }
    let course = Course::of(plan);
    let d = course.moves();
    let counters = walk.counters;
    let offsets = walk.offsets;
    let mut at = course.state_at(counters, offsets);
    let mut first = offsets;
    let mut more = true;
    while more {
        let next = course.take_stretch(MOST, &mut at, &mut first);
        let stretch = Blocks {
            plan,
            next,
            first: &first,
            moves: &d,
        };
        copy_stretch(stretch, width, &mut *destination, source);
        more = next.more;
    }
}
