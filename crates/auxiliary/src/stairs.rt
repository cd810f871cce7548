// Ranks of strides that grow in size from axis to axis, or fall, and of which none is 0: they count from 1 up, or down to 1. Most arrays lie so.
// "A branch on every comparison costs more than the sum" (ask 4): each stride is compared with the next one, what that gives is added up, and
// the sum is looked at once.
ghost use Rattle.std.specs.Prelude.{◌≡◌, cond, map, ◌-◌, ◌≤◌, ◌<◌, nat_abs, length, replicate};
ghost use Rattle.strided.specs.Base.{padded, run};
ghost use Rattle.strided.specs.Ranks.{ranks};
ghost use Rattle.auxiliary.specs.Stairs.{step_of, steps_to, stair_of};

use super::contributes;
use layout::Row;

// 1 if of two neighbours the second is larger, or, of falling ones, the first, and the smaller is not 0. Else 0.
fn step(one: i64, next: i64, falling: bool) -> u64
    ensures { (result ≡ step_of falling (nat_abs one) (nat_abs next)) × (result ≤ 1) }
{
    if falling {
        contributes(next, one)
    } else {
        contributes(one, next)
    }
}

// How many of the neighbours are such a step.
fn steps(row: Row, falling: bool) -> u64
    ensures { (result ≡ steps_to falling row.entry.strides.now (length row.entry.strides.now - 1)) × (result ≤ 64) }
{
    let mut count: u64 = 0;
    for i in 1..row.strides.len() {
        count += step(row.strides[i - 1], row.strides[i], falling);
    }
    count
}

// The rank of an axis on the stairs.
fn stair(row: Row, axis: usize, falling: bool) -> usize
    requires { axis < length row.strides.now }
    ensures { (result ≡ stair_of falling (length row.entry.strides.now) axis) × (result ≤ 64) }
{
    let axes = row.strides.len();
    if falling { axes - axis } else { axis + 1 }
}

// The ranks on the stairs, written into a row of zeros.
fn climb_into(row: Row, falling: bool, order: &mut [u8; 64])
    requires { order.old ≡ replicate 64 0 }
    ensures { let axes = length row.entry.strides.now in
        order.new ≡ padded 64 0 (map (stair_of falling axes) (run 0 axes)) }
{
    for i in 0..row.strides.len() {
        order[i] = stair(row, i, falling) as u8;
    }
}

// Whether the middle one of three strides or more is off the way from the first to the last: then they are no stairs.
fn astray(row: Row, first: i64, last: i64, falling: bool) -> bool {
    let axes = row.strides.len();
    if axes < 3 {
        return false;
    }
    let middle = row.strides[axes / 2];
    step(first, middle, falling) + step(middle, last, falling) < 2
}

// The ranks of strides that are stairs, written into a row of zeros. They are tried in the way that the first and the last stride go. Where
// they are none, it answers false, and the row is as it was.
pub fn stairs_into(row: Row, order: &mut [u8; 64]) -> bool
    requires { order.old ≡ replicate 64 0 }
    ensures { order.new ≡ cond result (padded 64 0 (ranks row.entry.strides.now)) (replicate 64 0) }
{
    let (Some(&first), Some(&last)) = (row.strides.first(), row.strides.last()) else {
        return false;
    };
    let falling = contributes(last, first) == 1;
    if astray(row, first, last, falling) {
        return false;
    }
    if steps(row, falling) + 1 == row.strides.len() as u64 {
        climb_into(row, falling, order);
        return true;
    }
    false
}
