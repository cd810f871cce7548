// What zero strides and stride sizes tell of an operand, whatever its total: the quick yes and the quick no.
ghost use Rattle.std.specs.Prelude.{◌≡◌, ◌↔◌, true, cond, ◌&&◌, ◌-◌, ◌*◌, ◌<◌, ltb, leb, eqb, pos, nat_abs, length, get_or};
ghost use Rattle.strided.specs.Base.{some_of};
ghost use Rattle.strided.specs.Mark.{stays_at, rises};
ghost use Rattle.laws.specs.Mark.Sizes.{reach_up_to, ClearAt};

use distinct::Operand;
use layout::Along;

// Whether an axis has more than one index and none of them moves.
fn stays(extent: u64, stride: i64) -> bool
    ensures { result ≡ (ltb 1 extent && eqb (nat_abs stride) 0) }
{
    1 < extent && stride == 0
}

// Whether some axis does.
pub fn some_stays(operand: Operand) -> bool
    ensures { result ≡ some_of (stays_at operand.entry.extents.now operand.entry.strides.now) 0 (length operand.entry.extents.now) }
{
    (0..operand.extents.len()).any(|i| stays(operand.extents[i], operand.strides[i]))
}

// The operand along axis i.
fn along(operand: Operand, i: usize) -> Along
    requires { i < length operand.extents.now }
    ensures extent { result.extent ≡ get_or operand.entry.extents.now i 0 }
    ensures stride { result.stride ≡ get_or operand.entry.strides.now i (pos 0) }
{
    Along {
        extent: operand.extents[i],
        stride: operand.strides[i],
    }
}

// An axis's part of the reach, if its stride's size is at most b.
fn part_up_to(along: Along, b: u64) -> u64
    requires { 0 < along.extent }
    ensures { result ≡ cond (leb (nat_abs along.stride) b) ((along.extent - 1) * nat_abs along.stride) 0 }
{
    if along.stride.unsigned_abs() <= b {
        along.way()
    } else {
        0
    }
}

// The reach of the axes whose stride's size is at most b.
fn reach_up_to(operand: Operand, b: u64) -> u64
    ensures { result ≡ reach_up_to b operand.entry.extents.now operand.entry.strides.now }
{
    let mut sum: u64 = 0;
    for i in (0..operand.extents.len()).rev() {
        sum += part_up_to(along(operand, i), b);
    }
    sum
}

// Whether the size of axis i's stride exceeds the reach of the other axes of no greater size.
fn is_clear(operand: Operand, i: usize) -> bool
    requires { i < length operand.extents.now }
    ensures { (result ≡ true) ↔ ClearAt operand.entry.extents.now operand.entry.strides.now i }
{
    let axis = along(operand, i);
    if axis.extent <= 1 {
        return true;
    }
    let size = axis.stride.unsigned_abs();
    reach_up_to(operand, size) < axis.way() + size
}

// Whether by rising stride size over the axes of extent above 1 each stride size exceeds the reach of those before it. No order is
// made: each axis is held against all that are no greater.
pub fn rising(operand: Operand) -> bool
    ensures { result ≡ rises operand.entry.extents.now operand.entry.strides.now }
{
    (0..operand.extents.len()).all(|i| is_clear(operand, i))
}
