// What a copy is asked for, where planning does not refuse the layout: the layout, its operands' sizes, where they begin in their buffers, and
// the machine that it is planned for.
ghost use Rattle.std.specs.Prelude.{◌≡◌, length, None};
ghost use Rattle.strided.specs.Refusals.{planning_refused};
ghost use Rattle.strided.specs.declared.Purpose.TheVariants.{PointwiseInto};

use layout::Layout;
use strided::Machine;

#[derive(Clone, Copy)]
pub struct Asked<'a> {
    pub layout: Layout<'a>,
    pub sizes: &'a [u64],
    pub starts: &'a [i64],
    pub machine: Machine,
    pub ghost operands: { layout.operands ≡ length sizes.now },
    pub ghost served: { planning_refused machine layout.extents.now sizes.now layout.strides.now (PointwiseInto 0) ≡ None },
}
