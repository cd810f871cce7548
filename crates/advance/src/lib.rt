// A walk moved to its next block. Nothing is checked here: whoever walks has checked once at the beginning.
// No division is made on the way: the block size in force and the start of the tile are kept for each axis beside its counter.
#![tactic(auto)]

ghost use Rattle.std.specs.Prelude.{◌≡◌, ◌<◌, ◌≤◌, get_or};
ghost use Rattle.strided.specs.Walk.{effective};
ghost use Rattle.layout.specs.Lent.{Whole};
ghost use Rattle.advance.specs.Moves.{Moves, after_move, Shifts, shifted};
ghost use Rattle.advance.specs.Arrays.{plan_in};
ghost use Rattle.advance.specs.Axis.{width_at, widths, Acting, start_of, starts_to};
ghost use Rattle.advance.specs.Carry.{Standing, PlaceOn, Roomy, Tiled, Single, CarriedTo, WentAhead, AdvancedTo};
ghost use Rattle.advance.specs.Blocks.{length_by, column_to, firsts_of};

use layout::LentPlan;

pub mod arrays;
mod place;
mod tiles;

pub use place::{Goal, Place};
pub use tiles::Tiles;

// Where a walk of many blocks stands: the counters, where the tiles start that they are in, and each operand's offset.
#[derive(Clone, Copy)]
pub struct State {
    pub tile_starts: [u64; 64],
    pub counters: [u64; 64],
    pub offsets: [i64; 8],
}

// The offset `o` after a move along an axis of stride `s`, from one counter to another. Where the stride is 0 the counters may be any.
pub fn moved(o: i64, s: i64, from: u64, to: u64) -> i64
    requires { Moves o s from to }
    ensures { result ≡ after_move o s from to }
{
    if s == 0 {
        return o;
    }
    if from <= to {
        let d = (to - from) as i64;
        o + d * s
    } else {
        let d = (from - to) as i64;
        o - d * s
    }
}

// Each operand's offset after the same move along an axis.
pub fn shift(plan: &LentPlan, axis: usize, from: u64, to: u64, o: &mut [i64; 8])
    requires { Shifts plan.now axis from to o.old }
    ensures { o.new ≡ shifted plan.now axis from to o.old }
{
    arrays::shift(plan.operands, axis, from, to, plan.strides, o);
}

// "A block size of 0 acts as 1, one above the extent as the extent."
pub fn effective(extent: u64, block: u64) -> u64
    ensures { result ≡ effective extent block }
{
    // Kept: with `min` the compiler no longer sees that the result is not 0, and a step tests each divisor (81 ns for 78).
    if extent == 0 {
        return 1;
    }
    if block == 0 {
        return 1;
    }
    if block < extent {
        return block;
    }
    extent
}

// The block size in force on an axis: from rank 9 only axis 0 is cut.
pub fn width_on(plan: &LentPlan, axis: usize) -> u64
    requires { axis < 64 }
    ensures { result ≡ width_at plan.now axis }
{
    arrays::width_of(plan.rank, axis, plan.extents[axis], plan.blocks[axis])
}

// The block sizes in force.
pub fn widths(plan: &LentPlan) -> [u64; 64]
    ensures { result ≡ widths plan.now }
{
    arrays::widths(plan.rank, plan.extents, plan.blocks)
}

// Where the tile starts that a counter is in. Blocks of 1 and the first tile need no division.
pub fn tile_start(width: u64, at: u64) -> u64
    requires { 0 < width }
    ensures { result ≡ start_of width at }
{
    if width == 1 {
        return at;
    }
    if at < width {
        return 0;
    }
    at / width * width
}

// A PLAN IN ITS TILES: the plan, and its block sizes as they act. A walk of many blocks looks at both at every turn.
#[derive(Drop)]
pub struct Tiling<'a, 'b> {
    pub plan: &'a LentPlan<'b>,
    pub widths: [u64; 64],
    pub ghost acting: { Acting widths plan.now },
}

// Kept: here and below, Roomy and Tiled as clauses. They bind a state to a plan and its block sizes, and every move makes them anew; a type of
// all three would hold a reference to the plan beside the state that it changes, and each caller would have to open it.

impl<'a, 'b> Tiling<'a, 'b> {
    pub fn of(plan: &'a LentPlan<'b>) -> Tiling<'a, 'b>
        ensures { result.plan.now ≡ plan.now }
    {
        Tiling {
            plan,
            widths: widths(plan),
        }
    }

    // Where the tiles start that the counters are in.
    pub fn tile_starts(&self, c: &[u64; 64]) -> [u64; 64]
        ensures { result ≡ starts_to self.now.widths c.now self.now.plan.now.rank }
    {
        let plan = self.plan;
        arrays::tile_starts(plan.rank, &self.widths, c)
    }

    // The same on the plan's arrays, for what any arrays are asked.
    pub fn tiles(&self) -> Tiles
        ensures plan { plan_in result ≡ self.now.plan.now }
        ensures whole { Whole (plan_in result) }
        ensures sizes { result.widths.now ≡ self.now.widths }
    {
        let plan = self.plan;
        Tiles {
            rank: plan.rank,
            operands: plan.operands,
            extents: plan.extents,
            blocks: plan.blocks,
            strides: plan.strides,
            widths: &self.widths,
        }
    }

    // The axes that a carry inside a tile has to look at: those from there on have blocks of 1, so they do not move inside a tile. From rank 9
    // on only axis 0 is cut, and none is left.
    pub fn inner_axes(&self) -> usize
        ensures { Single result self.now.plan.now self.now.widths }
    {
        self.tiles().inner_axes()
    }

    // Where a state stands on an axis.
    pub fn place(&self, axis: usize, at: &State) -> Place
        requires axis_bound { axis < 64 }
        requires standing { Standing self.now.plan.now self.now.widths axis at.now }
        ensures { PlaceOn self.now.plan.now self.now.widths axis at.now.counters result }
    {
        self.tiles().place(axis, at)
    }

    // A carry along the axes from `first` to `last`, inside a tile or from tile to tile. Says whether an axis went ahead.
    pub fn carry(&self, inside: bool, first: usize, last: usize, at: &mut State) -> bool
        requires roomy { Roomy self.now.plan.now at.old }
        requires tiled { Tiled self.now.plan.now self.now.widths at.old }
        requires last_le_rank { last ≤ self.now.plan.now.rank }
        ensures { CarriedTo inside first last self.now.plan.now self.now.widths at.old result at.new }
    {
        self.tiles().carry(inside, first, last, at)
    }

    // One axis inside its tile: it goes one ahead if it can. Says whether it did; if not, nothing has moved.
    pub fn go_ahead(&self, axis: usize, at: &mut State) -> bool
        requires roomy { Roomy self.now.plan.now at.old }
        requires tiled { Tiled self.now.plan.now self.now.widths at.old }
        requires axis_lt_rank { axis < self.now.plan.now.rank }
        ensures { WentAhead axis self.now.plan.now self.now.widths at.old result at.new }
    {
        self.tiles().go_ahead(axis, at)
    }

    // Moves the state to the next block. Says whether there is one; if not, it is back at the start. `inner` is what `inner_axes` tells, or
    // the rank.
    pub fn advance(&self, inner: usize, at: &mut State) -> bool
        requires roomy { Roomy self.now.plan.now at.old }
        requires tiled { Tiled self.now.plan.now self.now.widths at.old }
        requires single { Single inner self.now.plan.now self.now.widths }
        ensures { AdvancedTo self.now.plan.now self.now.widths at.old result at.new }
    {
        self.tiles().advance(inner, at)
    }
}

// The length of a block, by the block size in force on axis 0 and the counter there.
pub fn length_by(plan: &LentPlan, width: u64, at: u64) -> u64
    requires { 0 < plan.now.rank → at < get_or plan.now.extents 0 0 }
    ensures { result ≡ length_by plan.now width at }
{
    arrays::length_on(plan.rank, plan.extents[0], width, at)
}

// The strides of an axis, one for each operand.
pub fn column(plan: &LentPlan, axis: usize) -> [i64; 8]
    requires { axis < 64 }
    ensures { result ≡ column_to axis plan.now.strides plan.now.operands }
{
    arrays::column(plan.operands, axis, plan.strides)
}

// Those of axis 0, if there is one.
pub fn firsts(plan: &LentPlan) -> [i64; 8]
    ensures { result ≡ firsts_of plan.now }
{
    arrays::firsts(plan.rank, plan.operands, plan.strides)
}
