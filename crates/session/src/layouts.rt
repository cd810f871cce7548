// A session's layout where it lies in the session's arrays, once its counts are within the limits: at most 64 axes and 8 operands.
ghost use Rattle.std.specs.Prelude.{◌≡◌, ◌≤◌, length};

use super::Numbers;
use layout::{Layout, purpose_of, total_at_most};
use order::SMALL_TENSOR_THRESHOLD;
use strided::Purpose;

#[derive(Clone, Copy)]
pub struct SessionLayout<'a> {
    pub numbers: Numbers,
    pub extents: &'a [u64; 64],
    pub sizes: &'a [u64; 8],
    pub strides: &'a [i64; 512],
    pub ghost axes: { numbers.rank ≤ 64 },
    pub ghost few: { numbers.operands ≤ 8 },
    pub ghost all: { (length extents.now ≡ 64) × ((length sizes.now ≡ 8) × (length strides.now ≡ 512)) },
}

impl<'a> SessionLayout<'a> {
    ghost use Rattle.std.specs.Prelude.{◌*◌, leb, take};
    ghost use Rattle.strided.specs.Layout.{total};
    ghost use Rattle.session.specs.Made.{purpose_in};

    // Its slices.
    pub fn layout(&self) -> Layout<'a>
        ensures extents { result.extents.now ≡ take self.now.numbers.rank self.now.extents.now }
        ensures strides { result.strides.now ≡ take (self.now.numbers.rank * self.now.numbers.operands) self.now.strides.now }
        ensures operands { result.operands ≡ self.now.numbers.operands }
    {
        let numbers = self.numbers;
        let extents = self.extents;
        let strides = self.strides;
        Layout {
            extents: &extents[..numbers.rank],
            strides: &strides[..numbers.rank * numbers.operands],
            operands: numbers.operands,
        }
    }

    // Whether it has at most 1,024 cells: so few are fused as they are given, and not cut.
    pub fn small(&self) -> bool
        ensures { result ≡ leb (total (take self.now.numbers.rank self.now.extents.now)) 1024 }
    {
        total_at_most(self.layout().extents, SMALL_TENSOR_THRESHOLD)
    }

    pub fn purpose(&self) -> Purpose
        ensures { result ≡ purpose_in self.now.numbers }
    {
        purpose_of(self.numbers.purpose, self.numbers.chosen)
    }
}
