// One operand along one axis, where row 6 has let its way through.
ghost use Rattle.std.specs.Prelude.{◌≡◌, ◌-◌, ◌*◌, ◌^◌, ◌<◌, nat_abs};
ghost use Rattle.laws.specs.Walk.Row9.{below_term};

// The axis's extent and the operand's stride. Its way from end to end is below 2^63.
#[derive(Clone, Copy)]
pub struct Along {
    pub extent: u64,
    pub stride: i64,
    pub ghost near: { (extent - 1) * nat_abs stride < 2 ^ 63 },
}

impl Along {
    // Its way.
    pub fn way(self) -> u64
        requires { 0 < self.extent }
        ensures { result ≡ (self.extent - 1) * nat_abs self.stride }
    {
        (self.extent - 1) * self.stride.unsigned_abs()
    }

    // The part of the way that lies below a counter.
    pub fn below_at(self, at: u64) -> u64
        requires { at < self.extent }
        ensures { result ≡ below_term self.extent at self.stride }
    {
        let size = self.stride.unsigned_abs();
        if self.stride < 0 {
            return (self.extent - 1 - at) * size;
        }
        at * size
    }
}
