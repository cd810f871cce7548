// Each width has loops of its own, with the width a literal in them.
ghost use Rattle.std.specs.Prelude.{◌≡◌};
ghost use Rattle.cells.specs.Patched.{cells_of, copy_of, ApartIn};

use super::Patch;
use super::patches::copy_cells;

// A patch of 1 to 16 bytes a cell.
pub fn copy_by_width(destination: &mut [u8], source: &[u8], patch: Patch)
    requires { ApartIn patch destination.old source.now }
    ensures { destination.new ≡ copy_of patch (cells_of patch) destination.old source.now }
{
    match patch.width {
        1 => copy_cells(destination, source, patch.of_width(1)),
        2 => copy_cells(destination, source, patch.of_width(2)),
        3 => copy_cells(destination, source, patch.of_width(3)),
        4 => copy_cells(destination, source, patch.of_width(4)),
        5 => copy_cells(destination, source, patch.of_width(5)),
        6 => copy_cells(destination, source, patch.of_width(6)),
        7 => copy_cells(destination, source, patch.of_width(7)),
        8 => copy_cells(destination, source, patch.of_width(8)),
        9 => copy_cells(destination, source, patch.of_width(9)),
        10 => copy_cells(destination, source, patch.of_width(10)),
        11 => copy_cells(destination, source, patch.of_width(11)),
        12 => copy_cells(destination, source, patch.of_width(12)),
        13 => copy_cells(destination, source, patch.of_width(13)),
        14 => copy_cells(destination, source, patch.of_width(14)),
        15 => copy_cells(destination, source, patch.of_width(15)),
        _ => copy_cells(destination, source, patch.of_width(16)),
    }
}
