// Index finding from C: the index is told where the caller wants it.
ghost use Rattle.strided.specs.Index.{told_original, told_plan};
ghost use Rattle.strided.specs.Memory.{purpose_of, index_at, Tells};

use super::codes::code_of;
use finding::{original_index_into, plan_index_into};
use layout::purpose_of;

// The original index of a plan index.
#[unsafe(no_mangle)]
pub extern "C" fn gougelily_original_index<'a>(
    extents: &'a [u64],
    sizes: &'a [u64],
    strides: &'a [i64],
    purpose: u64,
    chosen: u64,
    counters: &'a [u64],
    count: &mut [usize; 1],
    index: &mut [u64; 64],
) -> i64
    ensures { Tells (told_original extents.now sizes.now strides.now (purpose_of purpose chosen) counters.now)
        (index_at count.old index.old)
        (index_at count.new index.new)
        result }
{
    let answer = original_index_into(
        extents,
        sizes,
        strides,
        purpose_of(purpose, chosen),
        counters,
        count,
        index,
    );
    code_of(answer)
}

// The plan index of an original index.
#[unsafe(no_mangle)]
pub extern "C" fn gougelily_plan_index<'a>(
    extents: &'a [u64],
    sizes: &'a [u64],
    strides: &'a [i64],
    purpose: u64,
    chosen: u64,
    original: &'a [u64],
    count: &mut [usize; 1],
    index: &mut [u64; 64],
) -> i64
    ensures { Tells (told_plan extents.now sizes.now strides.now (purpose_of purpose chosen) original.now)
        (index_at count.old index.old)
        (index_at count.new index.new)
        result }
{
    let answer = plan_index_into(
        extents,
        sizes,
        strides,
        purpose_of(purpose, chosen),
        original,
        count,
        index,
    );
    code_of(answer)
}
