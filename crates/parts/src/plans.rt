// Planning by the public entry that returns a plan by value. The plan, 5 KB, is then copied into the lent arrays.
ghost use Rattle.strided.specs.Machine.{machine_of};
ghost use Rattle.strided.specs.Refusals.{planning_refused};
ghost use Rattle.strided.specs.Plan.{the_plan};
ghost use Rattle.strided.specs.Memory.{plan_at, plan_memory, purpose_of};
ghost use Rattle.parts.specs.Answers.{Part};

use kernel::plan;
use layout::purpose_of;
use strided::Machine;

// The plan of a layout, refused by rows 1 to 6 and 24.
#[unsafe(no_mangle)]
pub extern "C" fn parts_plan<'a>(
    extents: &'a [u64],
    sizes: &'a [u64],
    strides: &'a [i64],
    kind: u64,
    chosen: u64,
    line: u64,
    cache: u64,
    way: u64,
    live: u64,
    rank: &mut [usize; 1],
    operands: &mut [usize; 1],
    plan_extents: &mut [u64; 64],
    blocks: &mut [u64; 64],
    plan_strides: &mut [i64; 512],
) -> u64
    ensures { let m = machine_of line cache way live in
        let u = purpose_of kind chosen in
        Part (planning_refused m extents.now sizes.now strides.now u)
        (plan_memory (the_plan m extents.now sizes.now strides.now u))
        (plan_at rank.old operands.old plan_extents.old blocks.old plan_strides.old)
        (plan_at rank.new operands.new plan_extents.new blocks.new plan_strides.new)
        result }
{
    let machine = Machine {
        line,
        cache,
        way,
        live,
    };
    let made = served!(plan(extents, sizes, strides, purpose_of(kind, chosen), machine));
    let e = made.extents;
    let b = made.blocks;
    let s = made.strides;
    *rank = [made.rank];
    *operands = [made.operands];
    *plan_extents = e;
    *blocks = b;
    *plan_strides = s;
    0
}
