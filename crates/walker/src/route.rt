// THE ROUTE OF A WALK in tiles of any size above 0, for whoever has no plan to lend. A lent plan's Course goes by it.
ghost use Rattle.std.specs.Prelude.{◌≡◌, true, false, ◌<◌, ◌≤◌, ◌+◌, ◌-◌, ◌*◌, pos, get_or, replicate, Some};
ghost use Rattle.advance.specs.Carry.{Single};
ghost use Rattle.advance.specs.Blocks.{length_of};
ghost use Rattle.advance.specs.Moves.{Shifts};
ghost use Rattle.advance.specs.Arrays.{plan_in};
ghost use Rattle.walker.specs.Way.{Leads, left_in, left_of, moves_of, AtEnd, MayGo, Gone, Strides, Leaves, MayTell, Passed, Hopped, Strode};

use super::arrays::{moves_of, stretch_here, way_of};
use super::{Here, Next, Way};
use advance::arrays::shift;
use advance::{Place, State, Tiles};

// The tiles, how many axes a carry inside a tile looks at, and the way of the stretches; where there is none, each stretch is one block.
#[derive(Clone, Copy)]
pub struct Route<'a> {
    pub tiles: Tiles<'a>,
    pub inner: usize,
    pub way: Option<Way>,
    pub ghost single: { Single inner (plan_in tiles) tiles.widths.now },
    pub ghost leads: { Leads way (plan_in tiles) tiles.widths.now },
}

impl Way {
    // How many blocks are ahead on the axis, the one at this place with them.
    pub(super) fn blocks_left(self, place: Place) -> u64
        ensures { result ≡ left_in self place.extent place.width place.at }
    {
        let left = place.extent - place.at;
        if self.inside {
            return left.min(place.width - (place.at - place.start));
        }
        (left / place.width).max(1)
    }

    // Whether the last block of the stretch is the axis's last: no shorter tile is behind it.
    fn ends_axis(self, place: Place, left: u64) -> bool
        requires { (0 < left) × (place.at + (left - 1) * self.by ≤ place.extent) }
        ensures { result ≡ true → self.inside ≡ false → place.extent - (place.at + (left - 1) * self.by) ≤ self.by }
    {
        self.inside || place.extent - (place.at + (left - 1) * self.by) <= self.by
    }
}

impl<'a> Route<'a> {
    pub fn of(tiles: Tiles<'a>) -> Route<'a>
        requires { tiles.rank ≤ 64 }
        ensures { result.tiles ≡ tiles.entry }
    {
        Route {
            inner: tiles.inner_axes(),
            way: way_of(tiles.rank, tiles.extents, tiles.widths),
            tiles,
        }
    }

    // How far each operand moves from block to block.
    pub fn moves(&self) -> [i64; 8]
        requires few { self.now.tiles.operands ≤ 8 }
        requires moves { (y : _) → self.now.way ≡ Some y → Shifts (plan_in self.now.tiles) y.axis 0 y.by (replicate 8 (pos 0)) }
        ensures { result ≡ moves_of self.now.way (plan_in self.now.tiles) }
    {
        moves_of(self.way, self.tiles.operands, self.tiles.strides)
    }

    // Goes on by `steps` blocks along a way.
    fn go_steps(&self, y: Way, steps: u64, at: &mut State)
        requires few { self.now.tiles.operands ≤ 8 }
        requires may_go { MayGo y steps (plan_in self.now.tiles) at.old }
        ensures { Gone y steps (plan_in self.now.tiles) at.old at.new }
    {
        if steps == 0 {
            return;
        }
        let axis = y.axis;
        let from = at.counters[axis];
        let to = from + steps * y.by;
        shift(
            self.tiles.operands,
            axis,
            from,
            to,
            self.tiles.strides,
            &mut at.offsets,
        );
        at.counters[axis] = to;
        if y.inside {
            return;
        }
        at.tile_starts[axis] = to;
    }

    // Leaves the stretch at the counters, all of it: its axis goes home, and the axes behind it carry on. Says whether there is a block.
    fn leave(&self, y: Way, at: &mut State) -> bool
        requires strides { Strides (plan_in self.now.tiles) self.now.tiles.widths.now at.old }
        requires way { self.now.way ≡ Some y }
        requires at_end { AtEnd y (get_or self.now.tiles.extents.now y.axis 0) (get_or self.now.tiles.widths.now y.axis 0)
            (get_or at.old.counters y.axis 0) }
        ensures { Leaves (Some y) (plan_in self.now.tiles) self.now.tiles.widths.now at.old result at.new }
    {
        let tiles = &self.tiles;
        let rank = tiles.rank;
        let axis = y.axis;
        let from = at.counters[axis];
        if y.inside {
            let start = at.tile_starts[axis];
            shift(
                tiles.operands,
                axis,
                from,
                start,
                tiles.strides,
                &mut at.offsets,
            );
            at.counters[axis] = start;
            return tiles.carry(true, axis + 1, self.inner, at) || tiles.carry(false, 0, rank, at);
        }
        shift(
            tiles.operands,
            axis,
            from,
            0,
            tiles.strides,
            &mut at.offsets,
        );
        at.counters[axis] = 0;
        at.tile_starts[axis] = 0;
        tiles.carry(false, axis + 1, rank, at)
    }

    // Looks at the stretch at the counters; nothing moves.
    pub fn stretch_here(&self, at: &State) -> Here
        requires { MayTell self.now.way (plan_in self.now.tiles) self.now.tiles.widths.now at.now }
        ensures { (result.left ≡ left_of self.now.way (plan_in self.now.tiles) self.now.tiles.widths.now at.now.counters)
            × (result.length ≡ length_of (plan_in self.now.tiles) self.now.tiles.widths.now at.now.counters) }
    {
        let tiles = self.tiles;
        stretch_here(self.way, tiles.rank, tiles.extents, tiles.widths, at)
    }

    // Goes past the stretch at the counters, of at most `limit` blocks, in the case that comes most often (see Course). Says whether it was so; if
    // not, nothing has moved.
    pub fn hop(&self, limit: u64, left: u64, at: &mut State) -> bool
        requires strides { Strides (plan_in self.now.tiles) self.now.tiles.widths.now at.old }
        requires left_value { left ≡ left_of self.now.way (plan_in self.now.tiles) self.now.tiles.widths.now at.old.counters }
        ensures { Hopped self.now.way limit (plan_in self.now.tiles) self.now.tiles.widths.now at.old result at.new }
    {
        let Some(y) = self.way else {
            return false;
        };
        let axis = y.axis;
        if !y.inside
            || self.inner <= axis + 1
            || limit < left
            || at.counters[axis] != at.tile_starts[axis]
        {
            return false;
        }
        self.tiles.go_ahead(axis + 1, at)
    }

    // Goes past the stretch at the counters, of at most `limit` blocks, in any case. Says whether there is a block behind it; if not, the
    // state is back at the start.
    pub fn go_behind(&self, limit: u64, left: u64, at: &mut State) -> bool
        requires strides { Strides (plan_in self.now.tiles) self.now.tiles.widths.now at.old }
        requires left_value { left ≡ left_of self.now.way (plan_in self.now.tiles) self.now.tiles.widths.now at.old.counters }
        ensures { Passed self.now.way limit (plan_in self.now.tiles) self.now.tiles.widths.now at.old result at.new }
    {
        let Some(y) = self.way else {
            return limit == 0 || self.tiles.advance(self.inner, at);
        };
        let place = self.tiles.place(y.axis, at);
        if limit < left {
            self.go_steps(y, limit, at);
            return true;
        }
        if y.ends_axis(place, left) {
            return self.leave(y, at);
        }
        self.go_steps(y, left - 1, at);
        self.tiles.advance(self.inner, at)
    }

    // THE STRETCH at the counters, of at most `limit` blocks: the offsets of its first block go to `first`, and the walk goes past it.
    pub fn take_stretch(&self, limit: u64, at: &mut State, first: &mut [i64; 8]) -> Next
        requires { Strides (plan_in self.now.tiles) self.now.tiles.widths.now at.old }
        ensures { Strode self.now.way limit (plan_in self.now.tiles) self.now.tiles.widths.now at.old result first.new at.new }
    {
        let x = self.stretch_here(at);
        *first = at.offsets;
        let more = self.go_behind(limit, x.left, at);
        Next {
            count: limit.min(x.left),
            length: x.length,
            more,
        }
    }
}
