// A quick answer for row 6: where no extent and no stride is large no reach is, and none need be summed.
ghost use Rattle.std.specs.Prelude.{◌≡◌, ◌&&◌, ◌^◌, ◌≤◌, length, nat_abs};
ghost use Rattle.layout.specs.Near.{all_below};

use super::below::all_below;

// Whether every extent is below 2^16 and every stride's size below 2^41: 64 products of such have a sum below 2^63.
pub fn small_layout<'a>(extents: &'a [u64], strides: &'a [i64]) -> bool
    ensures { result ≡ (all_below (λ n. n) (2 ^ 16) extents.now && all_below nat_abs (2 ^ 41) strides.now) }
{
    all_below(extents, 16) && all_below(strides, 41)
}
