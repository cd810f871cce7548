// How many bytes a cell has, where row 16 lets the sizes through.
ghost use Rattle.std.specs.Prelude.{◌≤◌};

#[derive(Clone, Copy)]
pub struct Width {
    pub bytes: usize,
    pub ghost some: { 1 ≤ bytes },
    pub ghost most: { bytes ≤ 16 },
}
