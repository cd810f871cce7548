// A layout's slices once rows 1 to 3 have let them through, and its strides alone, for whoever only moves along the axes; and a list as an array
// holds it.
ghost use Rattle.std.specs.Prelude.{◌≡◌, ◌*◌, ◌≤◌, ◌<◌, length, take, drop, replicate};
ghost use Rattle.strided.specs.Base.{padded};
ghost use Rattle.strided.specs.Layout.{stride_row};
ghost use Rattle.layout.specs.Fitting.{Fitting};

// At most 64 axes and 8 operands, and a stride for each axis and operand.
#[derive(Clone, Copy)]
pub struct Layout<'a> {
    pub extents: &'a [u64],
    pub strides: &'a [i64],
    pub operands: usize,
    pub ghost fits: { Fitting strides.now (length extents.now) operands },
}

impl<'a> Layout<'a> {
    // The strides of a layout stand operand by operand, with the rank between them.
    pub fn rows(self) -> Rows<'a>
        ensures strides { result.strides.now ≡ self.entry.strides.now }
        ensures pitch { result.pitch ≡ length self.entry.extents.now }
        ensures operands { result.operands ≡ self.entry.operands }
    {
        Rows {
            strides: self.strides,
            pitch: self.extents.len(),
            operands: self.operands,
        }
    }

    // The strides of one operand.
    pub fn row(self, k: usize) -> Row<'a>
        requires { k < self.operands }
        ensures { result.strides.now ≡ stride_row self.entry.strides.now (length self.entry.extents.now) k }
    {
        Row {
            strides: self.rows().row(k, self.extents.len()),
        }
    }
}

// One operand's strides, at most 64.
#[derive(Clone, Copy)]
pub struct Row<'a> {
    pub strides: &'a [i64],
    pub ghost few: { length strides.now ≤ 64 },
}

// Operand k's stride on axis a stands at k * pitch + a: the pitch is the rank for a layout's own strides, 64 for a plan's.
#[derive(Clone, Copy)]
pub struct Rows<'a> {
    pub strides: &'a [i64],
    pub pitch: usize,
    pub operands: usize,
    pub ghost all: { operands * pitch ≤ length strides.now },
}

impl<'a> Rows<'a> {
    // Operand k's strides on the first `axes` axes.
    pub fn row(self, k: usize, axes: usize) -> &'a [i64]
        requires { (k < self.operands) × (axes ≤ self.pitch) }
        ensures { result.now ≡ take axes (drop (k * self.entry.pitch) self.entry.strides.now) }
    {
        let from = k * self.pitch;
        &self.strides[from..from + axes]
    }
}

// A list, written into an array of zeros.
pub fn lay_into<const N: usize>(list: &[u64], out: &mut [u64; N])
    requires few { length list.now ≤ N }
    requires out { out.old ≡ replicate N 0 }
    ensures { out.new ≡ padded N 0 list.now }
{
    out[..list.len()].copy_from_slice(list);
}
