// A patch of cells with both its sides, as it is handed to a copy.
ghost use Rattle.std.specs.Prelude.{◌≡◌, ◌≤◌, ◌<◌, ◌^◌};

use super::Side;

// n1 runs of n0 cells of `width` bytes, and where they lie in the destination (`to`) and in the source (`from`).
#[derive(Clone, Copy)]
pub struct Patch {
    pub n0: u64,
    pub n1: u64,
    pub width: usize,
    pub to: Side,
    pub from: Side,
    pub ghost narrow: { (1 ≤ width) × (width ≤ 16) },
    pub ghost few: { (n0 < 2 ^ 63) × (n1 < 2 ^ 63) },
}

impl Patch {
    // The same patch. Where the width is a literal at the call it is one in what is made of it.
    pub fn of_width(self, width: usize) -> Patch
        requires { width ≡ self.width }
        ensures { result ≡ self }
    {
        // Kept: each field, since a literal of a struct with ghost facts takes no `..self`.
        Patch {
            n0: self.n0,
            n1: self.n1,
            width,
            to: self.to,
            from: self.from,
        }
    }
}
