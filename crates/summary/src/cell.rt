// A summary of f64 cells, and what one more cell makes of it. It is a value: a loop over cells hands it on from cell to cell, in registers.
ghost use Rattle.std.specs.Prelude.{◌≡◌, ◌<◌, ◌≤◌, ◌^◌, ◌-◌, ◌+◌};
ghost use Rattle.summary.specs.Sums.{nothing_met, lesser, greater, with_cell};

// `count` cells, of which `nans` are not a number. Without `extremes` least and greatest are +0.0.
// Kept: least and greatest beside a yes or no, and no Option of both. The public entry hands them out, and promises both as +0.0 where there
// are none, as document 02 has it.
#[derive(Clone, Copy)]
pub struct Summary {
    pub sum: f64,
    pub least: f64,
    pub greatest: f64,
    pub count: u64,
    pub nans: u64,
    pub extremes: bool,
}

// No cell yet.
pub fn nothing_met() -> Summary
    ensures { result ≡ nothing_met }
{
    Summary {
        sum: 0.0,
        least: 0.0,
        greatest: 0.0,
        count: 0,
        nans: 0,
        extremes: false,
    }
}

// x where it is strictly smaller.
// Kept: `f64::min` leaves open which zero of two is the less.
fn lesser(x: f64, least: f64) -> f64
    ensures { result ≡ lesser x least }
{
    if x < least { x } else { least }
}

// x where it is strictly greater.
// Kept: `f64::max` leaves open which zero of two is the greater.
fn greater(x: f64, greatest: f64) -> f64
    ensures { result ≡ greater x greatest }
{
    if greatest < x { x } else { greatest }
}

// ONE MORE CELL. Where there are extremes a cell that is not a number is neither less nor greater than they are, so that the cells of a loop need
// no test of their own for it.
pub fn with_cell(s: Summary, x: f64) -> Summary
    requires { (s.count < 2 ^ 64 - 1) × (s.nans ≤ s.count) }
    ensures { result ≡ with_cell s x }
{
    let sum = s.sum + x;
    let count = s.count + 1;
    let nan = x.is_nan();
    if s.extremes {
        return Summary {
            sum,
            least: lesser(x, s.least),
            greatest: greater(x, s.greatest),
            count,
            nans: s.nans + u64::from(nan),
            extremes: true,
        };
    }
    if nan {
        return Summary {
            sum,
            count,
            nans: s.nans + 1,
            ..s
        };
    }
    Summary {
        sum,
        least: x,
        greatest: x,
        count,
        nans: s.nans,
        extremes: true,
    }
}

// TWO MORE CELLS. Where both are numbers, the lesser and the greater of them are told before the extremes are known, which so wait for one
// comparison and not for two: that is less than the sum waits for its two additions.
pub fn with_pair(s: Summary, x: f64, y: f64) -> Summary
    requires { (s.count + 1 < 2 ^ 64 - 1) × (s.nans ≤ s.count) }
    ensures { result ≡ with_cell (with_cell s x) y }
{
    if !s.extremes | x.is_nan() | y.is_nan() {
        return with_cell(with_cell(s, x), y);
    }
    Summary {
        sum: s.sum + x + y,
        least: lesser(lesser(y, x), s.least),
        greatest: greater(greater(y, x), s.greatest),
        count: s.count + 2,
        nans: s.nans,
        extremes: true,
    }
}
