// Summaries from C: sum, extremes and counts of an operand's f64 cells, in the order of its plan.
ghost use Rattle.strided.specs.Machine.{machine_of};
ghost use Rattle.summary.specs.Rows.{summarized};
ghost use Rattle.summary.specs.Memory.{summary_at, Summarizes};

use strided::Machine;
use summary::summarize;
use walk::memory::flag;

// The summary of the cells that the operand's layout names in the slice, on a machine of these four numbers.
#[unsafe(no_mangle)]
pub extern "C" fn gougelily_summary<'a, 'b>(
    extents: &'a [u64],
    strides: &'a [i64],
    line: u64,
    cache: u64,
    way: u64,
    live: u64,
    start: i64,
    cells: &'b [f64],
    sum: &mut [f64; 1],
    least: &mut [f64; 1],
    greatest: &mut [f64; 1],
    count: &mut [u64; 1],
    nans: &mut [u64; 1],
    extremes: &mut [u64; 1],
) -> i64
    ensures { let m = machine_of line cache way live in
        Summarizes (summarized m extents.now strides.now start cells.now)
        (summary_at sum.old least.old greatest.old count.old nans.old extremes.old)
        (summary_at sum.new least.new greatest.new count.new nans.new extremes.new)
        result }
{
    let machine = Machine {
        line,
        cache,
        way,
        live,
    };
    let s = served!(summarize(extents, strides, machine, start, cells));
    *sum = [s.sum];
    *least = [s.least];
    *greatest = [s.greatest];
    *count = [s.count];
    *nans = [s.nans];
    *extremes = [flag(s.extremes)];
    0
}
