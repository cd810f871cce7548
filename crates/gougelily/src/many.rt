// Many steps of a walk in one call from C.
ghost use Rattle.strided.specs.Bulk.{stepped_many};
ghost use Rattle.strided.specs.Memory.{plan_of, walk_at, walk_in, many_at, StepsMany};

use bulk::step_many_into;
use layout::LentPlan;

// Many steps of a lent walk: as many of its next blocks as both slices have room for.
#[unsafe(no_mangle)]
pub extern "C" fn gougelily_step_many<'a>(
    rank: usize,
    operands: usize,
    extents: &'a [u64; 64],
    blocks: &'a [u64; 64],
    strides: &'a [i64; 512],
    ended: &mut [u64; 1],
    counters: &mut [u64; 64],
    offsets: &mut [i64; 8],
    block_lengths: &mut [u64],
    block_offsets: &mut [i64],
) -> i64
    ensures { let p = plan_of rank operands extents.now blocks.now strides.now in
        let w = walk_at ended.old counters.old offsets.old in
        let w' = walk_at ended.new counters.new offsets.new in
        StepsMany (stepped_many p (walk_in w) block_lengths.old block_offsets.old)
        (many_at w block_lengths.old block_offsets.old)
        (many_at w' block_lengths.new block_offsets.new)
        result }
{
    let plan = served!(LentPlan::of(rank, operands, extents, blocks, strides));
    let several = served!(step_many_into(
        &plan,
        ended,
        counters,
        offsets,
        block_lengths,
        block_offsets,
    ));
    match several {
        None => 0,
        Some(count) => count as i64,
    }
}
