// Whether some cell of an operand lies outside those that are lent, told exactly from its least and its greatest offset. Rows 17 and 22 ask it.
#![tactic(auto)]

ghost use Rattle.std.specs.Prelude.{◌≡◌};
ghost use Rattle.strided.specs.Layout.{reach_down};
ghost use Rattle.span.specs.Span.{outside, Spans};
ghost use Rattle.span.specs.Ways.{Full};

use layout::sizes::reach_of;
use layout::{Along, has_zero};

// How far the offsets lie below the start.
fn down_of<'a>(extents: &'a [u64], strides: &'a [i64]) -> u64
    requires { Full extents.now strides.now }
    ensures { result ≡ reach_down extents.now strides.now }
{
    let mut sum: u64 = 0;
    for (extent, stride) in extents.iter().zip(strides) {
        let axis = Along {
            extent: *extent,
            stride: *stride,
        };
        sum += axis.below_at(0);
    }
    sum
}

// Whether the offsets of an operand, which begins at `start`, leave the cells 0 to `cells` - 1.
pub fn cell_outside<'a>(extents: &'a [u64], strides: &'a [i64], start: i64, cells: u64) -> bool
    requires { Spans extents.now strides.now }
    ensures { result ≡ outside extents.now strides.now start cells }
{
    if has_zero(extents) {
        return false;
    }
    if start < 0 {
        return true;
    }
    let at = start as u64;
    let below = down_of(extents, strides);
    at < below || cells <= at + (reach_of(extents, strides) - below)
}
