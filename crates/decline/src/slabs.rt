// One operand's slabs at a cut on a machine, and that row 6 bounds what they span.
ghost use Rattle.std.specs.Prelude.{◌+◌, ◌-◌, ◌^◌, ◌≤◌};
ghost use Rattle.strided.specs.Base.{sum};
ghost use Rattle.laws.specs.Cut.Rising.{way_of};
ghost use Rattle.laws.specs.Cut.Tables.{stride_size};

use region::{AllowedMachine, Operand};

// A slab spans the axes before the cut, `width` elements, and the axes from the cut on lead from slab to slab.
#[derive(Clone, Copy)]
pub struct Slabs<'a> {
    pub machine: AllowedMachine,
    pub operand: Operand<'a>,
    pub cut: usize,
    pub width: u64,
    pub ghost inside: { cut ≤ operand.axes.rank },
    pub ghost near: { width
        + sum (way_of (stride_size operand.axes.strides.now operand.k) operand.axes.extents.now) cut (operand.axes.rank - cut)
        ≤ 2 ^ 63 },
}
