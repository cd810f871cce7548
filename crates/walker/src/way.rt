// The way of a walk's stretches. It is found in arrays.rt, and what goes along it is in route.rt.
ghost use Rattle.std.specs.Prelude.{◌<◌};

// The way that the stretches of a walk go, the same all along it: along `axis`, `by` at a time, inside a tile or from tile to tile.
// Kept: `inside`. An enum of the two ways would hold the axis twice, and need a method for it and one for `by`, which most of what goes
// along it asks for whichever way it is.
#[derive(Clone, Copy)]
pub struct Way {
    pub inside: bool,
    pub axis: usize,
    pub by: u64,
    pub ghost small: { axis < 64 },
    pub ghost moves: { 0 < by },
}
