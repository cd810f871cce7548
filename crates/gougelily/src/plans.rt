// Planning from C: rows 1 to 6 and 24, then the plan, made where the caller wants it.
ghost use Rattle.std.specs.Prelude.{◌≡◌};
ghost use Rattle.strided.specs.Machine.{machine_of};
ghost use Rattle.strided.specs.Plan.{planned};
ghost use Rattle.strided.specs.Memory.{purpose_of, plan_at, Plans};

use kernel::{Aim, clear_axes, plan_into};
use layout::{check_planning, purpose_of};
use strided::Machine;

// The plan of a layout for a purpose, on a machine of these four numbers.
#[unsafe(no_mangle)]
pub extern "C" fn gougelily_plan<'a>(
    extents: &'a [u64],
    sizes: &'a [u64],
    strides: &'a [i64],
    purpose: u64,
    chosen: u64,
    line: u64,
    cache: u64,
    way: u64,
    live: u64,
    rank: &mut [usize; 1],
    operands: &mut [usize; 1],
    plan_extents: &mut [u64; 64],
    blocks: &mut [u64; 64],
    plan_strides: &mut [i64; 512],
) -> i64
    ensures { let m = machine_of line cache way live in
        Plans (planned m extents.now sizes.now strides.now (purpose_of purpose chosen))
        (plan_at rank.old operands.old plan_extents.old blocks.old plan_strides.old)
        (plan_at rank.new operands.new plan_extents.new blocks.new plan_strides.new)
        result }
{
    let wanted = purpose_of(purpose, chosen);
    let machine = Machine {
        line,
        cache,
        way,
        live,
    };
    let layout = served!(check_planning(extents, sizes, strides, wanted, machine));
    clear_axes(plan_extents, plan_strides);
    let aim = Aim {
        purpose: wanted,
        machine,
    };
    let axes = plan_into(aim, layout, sizes, plan_extents, blocks, plan_strides);
    *rank = [axes];
    *operands = [sizes.len()];
    0
}
