// A PLAN'S ARRAYS IN TILES OF ANY SIZE ABOVE 0, for whoever has no plan to lend. A lent plan's Tiling goes by it.
ghost use Rattle.std.specs.Prelude.{◌≡◌, ◌<◌, ◌≤◌};
ghost use Rattle.strided.specs.Memory.{plan_of};
ghost use Rattle.advance.specs.Arrays.{plan_in};
ghost use Rattle.advance.specs.Carry.{Standing, PlaceOn, Roomy, Tiled, Single, CarriedTo, WentAhead, AdvancedTo};

use super::arrays::{inner_axes, shift};
use super::{Place, State};

// The tiles are those of `widths`. No function reads `blocks`: with them the arrays are a plan, which is what the definitions are on.
#[derive(Clone, Copy)]
pub struct Tiles<'a> {
    pub rank: usize,
    pub operands: usize,
    pub extents: &'a [u64; 64],
    pub blocks: &'a [u64; 64],
    pub strides: &'a [i64; 512],
    pub widths: &'a [u64; 64],
}

impl<'a> Tiles<'a> {
    // Where there are no blocks beside the block sizes in force.
    pub fn on(
        rank: usize,
        operands: usize,
        extents: &'a [u64; 64],
        widths: &'a [u64; 64],
        strides: &'a [i64; 512],
    ) -> Tiles<'a>
        ensures arrays { plan_in result ≡ plan_of rank operands extents.now widths.now strides.now }
        ensures sizes { result.widths.now ≡ widths.now }
    {
        Tiles {
            rank,
            operands,
            extents,
            blocks: widths,
            strides,
            widths,
        }
    }

    // The axes that a carry inside a tile has to look at: those from there on have blocks of 1, so they do not move inside a tile. From rank 9
    // on only axis 0 is cut, and none is left.
    pub fn inner_axes(&self) -> usize
        requires { self.now.rank ≤ 64 }
        ensures { Single result (plan_in self.now) self.now.widths.now }
    {
        inner_axes(self.rank, self.widths)
    }

    // Where a state stands on an axis.
    pub fn place(&self, axis: usize, at: &State) -> Place
        requires axis_bound { axis < 64 }
        requires standing { Standing (plan_in self.now) self.now.widths.now axis at.now }
        ensures { PlaceOn (plan_in self.now) self.now.widths.now axis at.now.counters result }
    {
        Place {
            extent: self.extents[axis],
            width: self.widths[axis],
            start: at.tile_starts[axis],
            at: at.counters[axis],
        }
    }

    // A carry along the axes from `first` to `last`, inside a tile or from tile to tile. Says whether an axis went ahead.
    // Kept: `inside`, a literal at each call: the two carries are one loop, and two functions of it would be twins. A closure that tells the goal
    // was weighed: the definitions have the bool, so the contract would hold for whichever bool the closure's goals are those of, and every call,
    // here and in walker, would have to show which. A const parameter would be the same literals in another place.
    pub fn carry(&self, inside: bool, first: usize, last: usize, at: &mut State) -> bool
        requires roomy { Roomy (plan_in self.now) at.old }
        requires tiled { Tiled (plan_in self.now) self.now.widths.now at.old }
        requires last_le_rank { last ≤ self.now.rank }
        ensures { CarriedTo inside first last (plan_in self.now) self.now.widths.now at.old result at.new }
    {
        for i in first..last {
            let place = self.place(i, at);
            let goal = place.goal(inside);
            shift(
                self.operands,
                i,
                place.at,
                goal.to,
                self.strides,
                &mut at.offsets,
            );
            at.counters[i] = goal.to;
            at.tile_starts[i] = goal.start;
            if goal.more {
                return true;
            }
        }
        false
    }

    // One axis inside its tile: it goes one ahead if it can. Says whether it did; if not, nothing has moved.
    pub fn go_ahead(&self, axis: usize, at: &mut State) -> bool
        requires roomy { Roomy (plan_in self.now) at.old }
        requires tiled { Tiled (plan_in self.now) self.now.widths.now at.old }
        requires axis_lt_rank { axis < self.now.rank }
        ensures { WentAhead axis (plan_in self.now) self.now.widths.now at.old result at.new }
    {
        let place = self.place(axis, at);
        let goal = place.inside_goal();
        if !goal.more {
            return false;
        }
        shift(
            self.operands,
            axis,
            place.at,
            goal.to,
            self.strides,
            &mut at.offsets,
        );
        at.counters[axis] = goal.to;
        at.tile_starts[axis] = goal.start;
        true
    }

    // Moves the state to the next block. Says whether there is one; if not, it is back at the start. `inner` is what `inner_axes` tells, or
    // the rank.
    // Kept: the tiles by value. This is compiled as a function of its own; lent, each turn of a caller's loop that may come here would lay them into
    // memory first, up to 9 % of the instructions of many steps.
    pub fn advance(self, inner: usize, at: &mut State) -> bool
        requires roomy { Roomy (plan_in self) at.old }
        requires tiled { Tiled (plan_in self) self.widths.now at.old }
        requires single { Single inner (plan_in self) self.widths.now }
        ensures { AdvancedTo (plan_in self.entry) self.entry.widths.now at.old result at.new }
    {
        self.carry(true, 1, inner, at) || self.carry(false, 0, self.rank, at)
    }
}
