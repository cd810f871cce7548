// The copy of cells from C: rows 1, 2, 3, 24, 5, 6, 8, 9, 16, 17 and 18, then the cells.
ghost use Rattle.strided.specs.Machine.{machine_of};
ghost use Rattle.export.specs.Export.{copy_done};
ghost use Rattle.export.specs.Memory.{CopiesMemory};

use super::codes::code_of;
use export::copy;
use strided::Machine;

// The cells of operand 1 in `source` are copied to those of operand 0 in `destination`: 0, or the refusal negated.
#[unsafe(no_mangle)]
pub extern "C" fn gougelily_copy<'a>(
    extents: &'a [u64],
    sizes: &'a [u64],
    strides: &'a [i64],
    line: u64,
    cache: u64,
    way: u64,
    live: u64,
    starts: &'a [i64],
    destination: &mut [u8],
    source: &'a [u8],
) -> i64
    ensures { let m = machine_of line cache way live in
        CopiesMemory (copy_done m extents.now sizes.now strides.now starts.now
        destination.old source.now) destination.old destination.new result }
{
    let machine = Machine {
        line,
        cache,
        way,
        live,
    };
    code_of(copy(
        extents,
        sizes,
        strides,
        machine,
        starts,
        destination,
        source,
    ))
}
