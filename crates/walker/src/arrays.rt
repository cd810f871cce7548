// The way of a walk's stretches, what is told of it and a move on offsets, on arrays one by one, for whoever has no plan to lend.
ghost use Rattle.std.specs.Prelude.{◌≡◌, [], ◌<◌, ◌≤◌, pos, replicate, Some};
ghost use Rattle.strided.specs.Memory.{plan_of};
ghost use Rattle.advance.specs.Blocks.{length_of};
ghost use Rattle.advance.specs.Moves.{ShiftsTo};
ghost use Rattle.walker.specs.Way.{FirstCut, Leads, left_of, moves_of, MayTell, MayMove, added};

use super::{Here, Way};
use advance::arrays::{length_on, shift};
use advance::{Place, State};
use layout::first_below;

// The first axis from 1 on whose blocks are not 1.
fn first_cut(rank: usize, w: &[u64; 64]) -> Option<usize>
    requires { rank ≤ 64 }
    ensures { FirstCut (plan_of rank 0 [] [] []) w.now result }
{
    (1..rank).find(|&i| w[i] != 1)
}

// The way along an axis, if it leads on at all: tiles of any size may be wider than their axis, or empty. A plan's own are neither.
fn way_on(inside: bool, axis: usize, by: u64, extent: u64) -> Option<Way>
    requires { axis < 64 }
    ensures { (y : Way) → result ≡ Some y → (y.inside ≡ inside) × (y.axis ≡ axis) × (y.by ≡ by) × (by < extent) }
{
    if by == 0 || extent <= by {
        return None;
    }
    Some(Way { inside, axis, by })
}

// The way of a walk's stretches: along the quickest axis that moves inside a tile; where none does, along the quickest that has a second tile.
pub fn way_of<'a>(rank: usize, e: &'a [u64; 64], w: &'a [u64; 64]) -> Option<Way>
    requires { rank ≤ 64 }
    ensures { Leads result (plan_of rank 0 e.now w.now []) w.now }
{
    if let Some(cut) = first_cut(rank, w) {
        return way_on(true, cut, 1, e[cut]);
    }
    // the first axis with more than one tile
    let tiled = first_below(&w[..rank], &e[..rank])?;
    way_on(false, tiled, w[tiled], e[tiled])
}

// How far each operand moves from block to block along a way, if there is one.
pub fn moves_of(way: Option<Way>, operands: usize, s: &[i64; 512]) -> [i64; 8]
    requires few { operands ≤ 8 }
    requires moves { (y : _) → way ≡ Some y → ShiftsTo operands y.axis 0 y.by s.now (replicate 8 (pos 0)) }
    ensures { result ≡ moves_of way (plan_of 0 operands [] [] s.now) }
{
    let mut d = [0i64; 8];
    if let Some(y) = way {
        shift(operands, y.axis, 0, y.by, s, &mut d);
    }
    d
}

// The stretch at the counters along a way; where there is none it is one block.
pub fn stretch_here<'a>(
    way: Option<Way>,
    rank: usize,
    e: &'a [u64; 64],
    w: &'a [u64; 64],
    at: &State,
) -> Here
    requires { MayTell way (plan_of rank 0 e.now w.now []) w.now at.now }
    ensures { (result.left ≡ left_of way (plan_of rank 0 e.now w.now []) w.now at.now.counters)
        × (result.length ≡ length_of (plan_of rank 0 e.now w.now []) w.now at.now.counters) }
{
    let left = match way {
        None => 1,
        Some(y) => y.blocks_left(Place {
            extent: e[y.axis],
            width: w[y.axis],
            start: at.tile_starts[y.axis],
            at: at.counters[y.axis],
        }),
    };
    Here {
        left,
        length: length_on(rank, e[0], w[0], at.counters[0]),
    }
}

// From a block of a stretch to the one behind it: each operand's offset moves by its place of `d`.
// Kept: a range. With `iter_mut` behind `zip` what the function ensures stays open: nothing is known of what was written so. `enumerate` would
// still read `d` by its number.
pub fn move_by<'a>(operands: usize, d: &'a [i64; 8], o: &mut [i64; 8])
    requires { MayMove operands d.now o.old }
    ensures { o.new ≡ added operands d.now o.old }
{
    for k in 0..operands {
        o[k] += d[k];
    }
}
