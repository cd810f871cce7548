// The strides of a window, and row 15 on them: operand k's stride on axis i stands at place k * rank + i of the flat slice.
ghost use Rattle.std.specs.Prelude.{◌≡◌, true, false, not, ltb, pos, ◌*◌, ◌<◌, ◌*ℤ◌, length, replicate};
ghost use Rattle.strided.specs.Base.{padded, some_of};
ghost use Rattle.strided.specs.Layout.{in_i64};
ghost use Rattle.window.specs.Window.{stepped_stride, stride_over};
ghost use Rattle.window.specs.Selected.{new_strides};

use super::axis::Pick;
use super::selection::Selection;

// Whether the stride is kept.
fn kept(count: u64) -> bool
    ensures { result ≡ ltb count 2 }
{
    count < 2
}

// Whether the window's stride leaves 64 bits.
fn stride_over(pick: Pick, stride: i64) -> bool
    ensures { result ≡ not (in_i64 (stepped_stride pick.count pick.step stride)) }
{
    !kept(pick.count) && pick.step.checked_mul(stride).is_none()
}

// The window's stride.
fn new_stride(pick: Pick, stride: i64) -> i64
    requires { in_i64 (stepped_stride pick.count pick.step stride) ≡ true }
    ensures { result ≡ stepped_stride pick.count pick.step stride }
{
    if kept(pick.count) {
        stride
    } else {
        pick.step * stride
    }
}

// Whether some stride of operand k's leaves 64 bits.
fn some_over_in_row(selection: Selection, k: usize) -> bool
    requires { k < selection.layout.operands }
    ensures { let rank = length selection.entry.layout.extents.now in
        result ≡ some_of (stride_over (new_strides selection.entry)) (k * rank) rank }
{
    let row = selection.layout.row(k).strides;
    (0..row.len()).any(|i| stride_over(selection.at(i), row[i]))
}

// Whether some stride of the window leaves 64 bits.
pub fn some_stride_over(selection: Selection) -> bool
    ensures { let ws = new_strides selection.entry in
        result ≡ some_of (stride_over ws) 0 (length ws) }
{
    (0..selection.layout.operands).any(|k| some_over_in_row(selection, k))
}

// The window's strides, written into an array of zeros.
pub fn strides_into(selection: Selection, table: &mut [i64; 512])
    requires held { let ws = new_strides selection in
        some_of (stride_over ws) 0 (length ws) ≡ false }
    requires table_value { table.old ≡ replicate 512 (pos 0) }
    ensures { table.new ≡ padded 512 (pos 0) (new_strides selection.entry) }
{
    let layout = selection.layout;
    let rank = layout.extents.len();
    for k in 0..layout.operands {
        for (i, stride) in layout.row(k).strides.iter().enumerate() {
            table[k * rank + i] = new_stride(selection.at(i), *stride);
        }
    }
}
