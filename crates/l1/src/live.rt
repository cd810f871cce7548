// The axes of one operand whose lines must stay: those before its reuse axis.
ghost use Rattle.std.specs.Prelude.{◌≤◌};

// Their number, 0 if the operand does not count; and those whose byte stride is a multiple of the way, axis i as bit i.
#[derive(Clone, Copy)]
pub struct LiveAxes {
    pub count: usize,
    pub aliased: u64,
    pub ghost few: { count ≤ 64 },
}
