// A WALK IN STRETCHES: blocks of one length that follow each other along one axis are handed out at once. Nothing is checked here: whoever
// walks has checked once at the beginning. Whatever walks on inside the library, to the end or for many blocks, does it by `take_stretch`, or by
// the parts of it (bulk).
//
// The law to cite is in proofs/Repeated.antt: the stretches one after another, each laid out as its blocks, are the plan's blocks in order,
// each once, to the end (`stretches_plan`; from any state `stretches_blocks` and `stretches-all`). What a loop over stretches keeps, and
// what a call makes of it, is in proofs/Walked.antt.
#![tactic(auto)]

ghost use Rattle.std.specs.Prelude.{◌≡◌, ◌≤◌, pos, replicate, Some};
ghost use Rattle.advance.specs.Arrays.{plan_in};
ghost use Rattle.advance.specs.Axis.{starts_to};
ghost use Rattle.advance.specs.Carry.{Single, state_of};
ghost use Rattle.advance.specs.Blocks.{length_of};
ghost use Rattle.advance.specs.Moves.{Shifts};
ghost use Rattle.walker.specs.Way.{Leads, left_of, moves_of, Strides, MayTell, Passed, Hopped, Strode, MayMove, added};

use advance::{State, Tiling};
use layout::LentPlan;

pub mod arrays;
mod route;
pub mod stretch;
mod way;

pub use route::Route;
pub use stretch::Blocks;
pub use way::Way;

// THE COURSE OF A WALK, whatever its state: the plan in its tiles, how many axes a carry inside a tile looks at, and the way of its stretches.
// Where no axis moves there is none, and each stretch is one block.
// Kept: the block sizes by value, in the tiling. Lent, each caller would make them in a line of its own; a copy of them is 76 instructions, of the
// 1,780 of a call of many steps that hands out four blocks.
#[derive(Drop)]
pub struct Course<'a, 'b> {
    pub tiling: Tiling<'a, 'b>,
    pub inner: usize,
    pub way: Option<Way>,
    pub ghost single: { Single inner tiling.plan.now tiling.widths },
    pub ghost leads: { Leads way tiling.plan.now tiling.widths },
}

// A stretch: `count` blocks of `length` cells each. `more` says whether the walk goes on behind it.
#[derive(Clone, Copy)]
pub struct Next {
    pub count: u64,
    pub length: u64,
    pub more: bool,
}

// The stretch at the counters to its end: `left` blocks of `length` cells each.
#[derive(Clone, Copy)]
pub struct Here {
    pub left: u64,
    pub length: u64,
}

// A limit that no stretch passes, for whoever walks to the end.
pub const ALL: u64 = u64::MAX;

// Kept: Strides as a clause. It binds a state to a course, and every stretch makes it anew (crate advance has the same of Roomy and Tiled).

impl<'a, 'b> Course<'a, 'b> {
    pub fn of(plan: &'a LentPlan<'b>) -> Course<'a, 'b>
        ensures { result.tiling.plan.now ≡ plan.now }
    {
        let tiling = Tiling::of(plan);
        let route = Route::of(tiling.tiles());
        Course {
            inner: route.inner,
            way: route.way,
            tiling,
        }
    }

    // The same on the plan's arrays.
    pub fn route(&self) -> Route
        ensures plan { plan_in result.tiles ≡ self.now.tiling.plan.now }
        ensures few { result.tiles.operands ≤ 8 }
        ensures sizes { result.tiles.widths.now ≡ self.now.tiling.widths }
        ensures way { result.way ≡ self.now.way }
    {
        Route {
            tiles: self.tiling.tiles(),
            inner: self.inner,
            way: self.way,
        }
    }

    // Where a walk of many blocks stands at these counters and offsets.
    pub fn state_at(&self, counters: [u64; 64], offsets: [i64; 8]) -> State
        ensures { result ≡ state_of (starts_to self.now.tiling.widths counters self.now.tiling.plan.now.rank) counters offsets }
    {
        State {
            tile_starts: self.tiling.tile_starts(&counters),
            counters,
            offsets,
        }
    }

    // How far each operand moves from block to block.
    pub fn moves(&self) -> [i64; 8]
        requires { (y : _) → self.now.way ≡ Some y → Shifts self.now.tiling.plan.now y.axis 0 y.by (replicate 8 (pos 0)) }
        ensures { result ≡ moves_of self.now.way self.now.tiling.plan.now }
    {
        self.route().moves()
    }

    // Looks at the stretch at the counters; nothing moves.
    pub fn stretch_here(&self, at: &State) -> Here
        requires { MayTell self.now.way self.now.tiling.plan.now self.now.tiling.widths at.now }
        ensures { (result.left ≡ left_of self.now.way self.now.tiling.plan.now self.now.tiling.widths at.now.counters)
            × (result.length ≡ length_of self.now.tiling.plan.now self.now.tiling.widths at.now.counters) }
    {
        self.route().stretch_here(at)
    }

    // Goes past the stretch at the counters, of at most `limit` blocks, in the case that comes most often: it began where its tile does and is
    // taken to its end, and the next axis goes one ahead inside the tile. Nothing else moves. Says whether it was so; if not, nothing has moved.
    // Who calls it calls `go_behind` where it was not: this one is small enough to be compiled into the caller's loop.
    pub fn hop(&self, limit: u64, left: u64, at: &mut State) -> bool
        requires strides { Strides self.now.tiling.plan.now self.now.tiling.widths at.old }
        requires left_value { left ≡ left_of self.now.way self.now.tiling.plan.now self.now.tiling.widths at.old.counters }
        ensures { Hopped self.now.way limit self.now.tiling.plan.now self.now.tiling.widths at.old result at.new }
    {
        self.route().hop(limit, left, at)
    }

    // Goes past the stretch at the counters, of at most `limit` blocks, in any case. Says whether there is a block behind it; if not, the
    // state is back at the start.
    pub fn go_behind(&self, limit: u64, left: u64, at: &mut State) -> bool
        requires strides { Strides self.now.tiling.plan.now self.now.tiling.widths at.old }
        requires left_value { left ≡ left_of self.now.way self.now.tiling.plan.now self.now.tiling.widths at.old.counters }
        ensures { Passed self.now.way limit self.now.tiling.plan.now self.now.tiling.widths at.old result at.new }
    {
        self.route().go_behind(limit, left, at)
    }

    // Kept: a loop over stretches in each caller (writing, export, summary; bulk by the parts), and no `each_stretch` that is handed a closure. Its
    // contract would say that the closure was called at each stretch in order, and each caller would prove by induction over that what the
    // invariant of its loop says now. And writing leaves its loop where the room ends.

    // THE STRETCH at the counters, of at most `limit` blocks: the offsets of its first block go to `first`, and the walk goes past it.
    pub fn take_stretch(&self, limit: u64, at: &mut State, first: &mut [i64; 8]) -> Next
        requires { Strides self.now.tiling.plan.now self.now.tiling.widths at.old }
        ensures { Strode self.now.way limit self.now.tiling.plan.now self.now.tiling.widths at.old result first.new at.new }
    {
        self.route().take_stretch(limit, at, first)
    }
}

// From a block of a stretch to the one behind it: each operand's offset moves by its place of `d`.
pub fn move_by<'a>(plan: &LentPlan, d: &'a [i64; 8], o: &mut [i64; 8])
    requires { MayMove plan.now.operands d.now o.old }
    ensures { o.new ≡ added plan.now.operands d.now o.old }
{
    arrays::move_by(plan.operands, d, o)
}
