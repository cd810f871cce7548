// The cells of a run, and of a stretch of blocks, met in order. A cell that lies between the extremes only adds to the sum, and waits for nothing
// but the addition of the cell before it; others are met two by two, so that two of them wait for the extremes once.
ghost use Rattle.std.specs.Prelude.{◌≡◌, true, ◌<◌, ◌≤◌, ◌+◌, ◌-◌, ◌*◌, ◌^◌, ◌+ℤ◌, length};
ghost use Rattle.std.specs.Int.{w64};
ghost use Rattle.std.proofs.Common.{SFits};
ghost use Rattle.span.specs.Span.{in_cells};
ghost use Rattle.summary.specs.Sums.{with_cell};
ghost use Rattle.summary.specs.Visits.{cell_of};
ghost use Rattle.summary.specs.Ahead.{run_from, rows_from, Ahead, met, RunsFit};
ghost use Rattle.summary.specs.Parts.{between, adds_only, grown, Went};

use super::cell::{Summary, with_cell, with_pair};

// The cell at an offset that lies in the slice.
fn cell_at(cells: &[f64], o: i64) -> f64
    requires { in_cells (length cells.now) o ≡ true }
    ensures { result ≡ cell_of cells.now o }
{
    cells[o as usize]
}

// An offset and how far it moves.
fn moved(o: i64, by: i64) -> i64
    requires { SFits w64 (o +ℤ by) }
    ensures { result ≡ o +ℤ by }
{
    o + by
}

// Whether a cell lies between the extremes, or is one of them. What is not a number does not.
fn between(least: f64, x: f64, greatest: f64) -> bool
    ensures { result ≡ between least x greatest }
{
    (least <= x) & (x <= greatest)
}

// Where a cell does not only add to the sum, it and those behind it are met two by two, at first so many in all.
const FEW: u64 = 4;

// They are twice as many each time that such a cell comes behind fewer than so many others: guessing wrong costs a processor more than those save.
const SOON: u64 = 32;

// And never more than so many.
const MANY: u64 = 1024;

// Cells of a run that are met: how many, what they make of the summary, and the last one's offset.
#[derive(Clone, Copy)]
struct Part {
    summary: Summary,
    met: u64,
    last: i64,
}

// Whether a cell only adds to the sum: there are extremes, and it lies between them.
fn adds_only(s: Summary, x: f64) -> bool
    ensures { result ≡ adds_only s x }
{
    s.extremes && between(s.least, x, s.greatest)
}

// So many more cells that all lie between the extremes, and the sum with them.
fn grown(s: Summary, k: u64, sum: f64) -> Summary
    requires { s.count + k < 2 ^ 64 }
    ensures { result ≡ grown s k sum }
{
    Summary {
        sum,
        count: s.count + k,
        ..s
    }
}

// One more cell, tried first as one that only adds to the sum.
fn with_first(s: Summary, x: f64) -> Summary
    requires { (s.count < 2 ^ 64 - 1) × (s.nans ≤ s.count) }
    ensures { result ≡ with_cell s x }
{
    if adds_only(s, x) {
        return grown(s, 1, s.sum + x);
    }
    with_cell(s, x)
}

// Of the `n` cells behind the one at `last` those in front of the first that does not only add to the sum.
fn quiet_behind(s: Summary, cells: &[f64], last: i64, stride: i64, n: u64) -> Part
    requires { Ahead cells.now s (run_from (last +ℤ stride) stride n) }
    ensures { (result.met ≤ n) × Went cells.now s last stride result.met result }
{
    let mut sum = s.sum;
    let mut o = last;
    for k in 0..n {
        let next = moved(o, stride);
        let x = cell_at(cells, next);
        if !adds_only(s, x) {
            return Part {
                summary: grown(s, k, sum),
                met: k,
                last: o,
            };
        }
        sum += x;
        o = next;
    }
    Part {
        summary: grown(s, n, sum),
        met: n,
        last: o,
    }
}

// So many pairs of cells behind the one at `last`, pair by pair.
fn pairs_behind(s: Summary, cells: &[f64], last: i64, stride: i64, pairs: u64) -> Part
    requires { Ahead cells.now s (run_from (last +ℤ stride) stride (pairs * 2)) }
    ensures { Went cells.now s last stride (pairs * 2) result }
{
    let mut t = s;
    let mut o = last;
    for _k in 0..pairs {
        let first = moved(o, stride);
        let x = cell_at(cells, first);
        o = moved(first, stride);
        let y = cell_at(cells, o);
        t = with_pair(t, x, y);
    }
    Part {
        summary: t,
        met: pairs * 2,
        last: o,
    }
}

// The `n` cells behind the one at `last`, two by two, and an odd one behind them.
fn cells_behind(s: Summary, cells: &[f64], last: i64, stride: i64, n: u64) -> Part
    requires { Ahead cells.now s (run_from (last +ℤ stride) stride n) }
    ensures { Went cells.now s last stride n result }
{
    let p = pairs_behind(s, cells, last, stride, n / 2);
    if n % 2 == 0 {
        return p;
    }
    let last = moved(p.last, stride);
    let x = cell_at(cells, last);
    Part {
        summary: with_cell(p.summary, x),
        met: n,
        last,
    }
}

// The first of the `left` cells behind the one at `last`: those that only add to the sum, and where one is left, it and some behind it, at most
// `loud` in all.
fn part_behind(s: Summary, cells: &[f64], last: i64, stride: i64, left: u64, loud: u64) -> Part
    requires ahead { Ahead cells.now s (run_from (last +ℤ stride) stride left) × (0 < left) }
    requires some { 0 < loud }
    ensures { (0 < result.met) × (result.met ≤ left) × Went cells.now s last stride result.met result }
{
    let quiet = quiet_behind(s, cells, last, stride, left);
    if quiet.met == left {
        return quiet;
    }
    let rest = left - quiet.met;
    let other = cells_behind(quiet.summary, cells, quiet.last, stride, rest.min(loud));
    Part {
        summary: other.summary,
        met: quiet.met + other.met,
        last: other.last,
    }
}

// How many cells the next part may meet two by two, where the last might meet `loud` so and met so many in all.
fn next_loud(loud: u64, met: u64) -> u64
    requires { (0 < loud) × (loud ≤ 1024) }
    ensures { (0 < result) × (result ≤ 1024) }
{
    if met < loud + SOON {
        return (loud * 2).min(MANY);
    }
    FEW
}

// `n` cells from `first` on, `stride` apart, part by part. The first one stands before the loop: the move behind the last need not fit, and so
// none is made.
pub fn with_run(s: Summary, cells: &[f64], first: i64, stride: i64, n: u64) -> Summary
    requires { Ahead cells.now s (run_from first stride n) × (0 < n) }
    ensures { result ≡ met cells.now s (run_from first stride n) }
{
    let x = cell_at(cells, first);
    let mut t = with_first(s, x);
    let mut o = first;
    let mut k: u64 = 1;
    let mut loud = FEW;
    // Kept: a `while`. How many cells a part has is told only when it is met, so no range says the turns.
    while k < n {
        let p = part_behind(t, cells, o, stride, n - k, loud);
        t = p.summary;
        o = p.last;
        k += p.met;
        loud = next_loud(loud, p.met);
    }
    t
}

// Rows of cells: `count` runs of `n` cells, which lie `stride` apart in a run, and each run is `by` behind the one before.
#[derive(Clone, Copy)]
pub struct Rows {
    pub first: i64,
    pub by: i64,
    pub count: u64,
    pub stride: i64,
    pub n: u64,
}

// The cells of some rows, which have one each.
fn with_rows(s: Summary, cells: &[f64], rows: Rows) -> Summary
    requires runs_fit { RunsFit rows.first rows.by rows.count }
    requires ahead { Ahead cells.now s (rows_from rows.first rows.by rows.count rows.stride rows.n) × (0 < rows.n) }
    ensures { result ≡ met cells.now s (rows_from rows.first rows.by rows.count rows.stride rows.n) }
{
    let mut t = s;
    let mut o = rows.first;
    for j in 0..rows.count {
        t = with_run(t, cells, o, rows.stride, rows.n);
        if j + 1 < rows.count {
            o = moved(o, rows.by);
        }
    }
    t
}

// The same for rows of any length: the blocks of a stretch.
pub fn with_blocks(s: Summary, cells: &[f64], rows: Rows) -> Summary
    requires runs_fit { RunsFit rows.first rows.by rows.count }
    requires ahead { Ahead cells.now s (rows_from rows.first rows.by rows.count rows.stride rows.n) }
    ensures { result ≡ met cells.now s (rows_from rows.first rows.by rows.count rows.stride rows.n) }
{
    if rows.n == 0 {
        return s;
    }
    with_rows(s, cells, rows)
}
