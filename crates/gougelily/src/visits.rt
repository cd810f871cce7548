// A visit from C: a step with its record; and the two views of a record.
ghost use Rattle.std.specs.Prelude.{◌≡◌, pos};
ghost use Rattle.strided.specs.Memory.{purpose_of, plan_of, walk_at, walk_in, step_at, index_at};
ghost use Rattle.views.specs.Views.{engineer_of, student_of};
ghost use Rattle.views.specs.Visits.{visited};
ghost use Rattle.views.specs.Memory.{visit_at, VisitsMemory, record_of, engineer_at, engineer_memory, student_at, student_memory};

use super::codes::code;
use layout::purpose_of;
use views::arrays::visit_into;
use views::readers::{LentVisit, engineer_into, student_into};

// A visit of a lent walk.
#[unsafe(no_mangle)]
pub extern "C" fn gougelily_visit<'a>(
    extents: &'a [u64],
    sizes: &'a [u64],
    strides: &'a [i64],
    purpose: u64,
    chosen: u64,
    rank: usize,
    operands: usize,
    plan_extents: &'a [u64; 64],
    blocks: &'a [u64; 64],
    plan_strides: &'a [i64; 512],
    ended: &mut [u64; 1],
    counters: &mut [u64; 64],
    offsets: &mut [i64; 8],
    number: &mut [u64; 1],
    block_counters: &mut [u64; 64],
    length: &mut [u64; 1],
    block_offsets: &mut [i64; 8],
    block_strides: &mut [i64; 8],
    count: &mut [usize; 1],
    index: &mut [u64; 64],
) -> i64
    ensures { let p = plan_of rank operands plan_extents.now blocks.now plan_strides.now in
        let w = walk_at ended.old counters.old offsets.old in
        let w' = walk_at ended.new counters.new offsets.new in
        let s = step_at w block_counters.old length.old block_offsets.old block_strides.old in
        let s' = step_at w' block_counters.new length.new block_offsets.new block_strides.new in
        let old = visit_at s number.old (index_at count.old index.old) in
        let new = visit_at s' number.new (index_at count.new index.new) in
        let u = purpose_of purpose chosen in
        VisitsMemory (visited extents.now sizes.now strides.now u p (walk_in w)) old new result }
{
    let some = visit_into(
        extents,
        sizes,
        strides,
        purpose_of(purpose, chosen),
        rank,
        operands,
        plan_extents,
        blocks,
        plan_strides,
        ended,
        counters,
        offsets,
        number,
        block_counters,
        length,
        block_offsets,
        block_strides,
        count,
        index,
    );
    code(some, i64::from)
}

// What an engineer sees of a record.
#[unsafe(no_mangle)]
pub extern "C" fn gougelily_engineer<'a>(
    number: u64,
    counters: &'a [u64; 64],
    length: u64,
    offsets: &'a [i64; 8],
    strides: &'a [i64; 8],
    count: usize,
    index: &'a [u64; 64],
    engineer_counters: &mut [u64; 64],
    engineer_length: &mut [u64; 1],
    engineer_offsets: &mut [i64; 8],
    engineer_strides: &mut [i64; 8],
) -> i64
    ensures code { result ≡ pos 0 }
    ensures view { let v = record_of number counters.now length offsets.now strides.now count index.now in
        let new = engineer_at engineer_counters.new engineer_length.new engineer_offsets.new engineer_strides.new in
        new ≡ engineer_memory (engineer_of v) }
{
    let visit = LentVisit {
        number,
        counters,
        length,
        offsets,
        strides,
        count,
        index,
    };
    engineer_into(
        &visit,
        engineer_counters,
        engineer_length,
        engineer_offsets,
        engineer_strides,
    );
    0
}

// What a student sees of a record.
#[unsafe(no_mangle)]
pub extern "C" fn gougelily_student<'a>(
    number: u64,
    counters: &'a [u64; 64],
    length: u64,
    offsets: &'a [i64; 8],
    strides: &'a [i64; 8],
    count: usize,
    index: &'a [u64; 64],
    student_number: &mut [u64; 1],
    student_length: &mut [u64; 1],
    student_count: &mut [usize; 1],
    student_index: &mut [u64; 64],
) -> i64
    ensures code { result ≡ pos 0 }
    ensures view { let v = record_of number counters.now length offsets.now strides.now count index.now in
        let new = student_at student_number.new student_length.new student_count.new student_index.new in
        new ≡ student_memory (student_of v) }
{
    let visit = LentVisit {
        number,
        counters,
        length,
        offsets,
        strides,
        count,
        index,
    };
    student_into(
        &visit,
        student_number,
        student_length,
        student_count,
        student_index,
    );
    0
}
