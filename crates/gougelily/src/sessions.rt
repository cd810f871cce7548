// Sessions from C: a session lies in lent arrays, a number in an array of one place. An operand joins it or leaves it where it lies.
ghost use Rattle.std.specs.Prelude.{◌≡◌};
ghost use Rattle.strided.specs.Machine.{machine_of};
ghost use Rattle.strided.specs.Memory.{purpose_of, Handed};
ghost use Rattle.session.specs.Session.{given, begun, joined, left};
ghost use Rattle.session.specs.Memory.{numbers_at};
ghost use Rattle.session.specs.Made.{session_at};

use super::codes::code_of;
use joining::{begin_lent, join_lent, leave_lent};
use kernel::Aim;
use layout::purpose_of;
use session::Numbers;
use strided::Machine;

// ---- the numbers

// A session's numbers, from where they are lent.
fn read_numbers<'a>(
    purpose: &'a [u64; 1],
    chosen: &'a [u64; 1],
    machine: &'a [u64; 4],
    rank: &'a [usize; 1],
    operands: &'a [usize; 1],
    plan_counts: &'a [usize; 2],
) -> Numbers
    ensures { result ≡ numbers_at purpose.now chosen.now machine.now
        rank.now operands.now plan_counts.now }
{
    let record = Machine {
        line: machine[0],
        cache: machine[1],
        way: machine[2],
        live: machine[3],
    };
    Numbers {
        purpose: purpose[0],
        chosen: chosen[0],
        machine: record,
        rank: rank[0],
        operands: operands[0],
        plan_rank: plan_counts[0],
        plan_operands: plan_counts[1],
    }
}

// A session's numbers, written to where they are lent.
fn put_numbers(
    numbers: Numbers,
    purpose: &mut [u64; 1],
    chosen: &mut [u64; 1],
    machine: &mut [u64; 4],
    rank: &mut [usize; 1],
    operands: &mut [usize; 1],
    plan_counts: &mut [usize; 2],
)
    ensures { numbers_at purpose.new chosen.new machine.new
        rank.new operands.new plan_counts.new ≡ numbers }
{
    let record = numbers.machine;
    *purpose = [numbers.purpose];
    *chosen = [numbers.chosen];
    *machine = [record.line, record.cache, record.way, record.live];
    *rank = [numbers.rank];
    *operands = [numbers.operands];
    *plan_counts = [numbers.plan_rank, numbers.plan_operands];
}

// ---- the entries

// A session begins with a layout.
#[unsafe(no_mangle)]
pub extern "C" fn gougelily_begin_session<'a>(
    layout_extents: &'a [u64],
    layout_sizes: &'a [u64],
    layout_strides: &'a [i64],
    wanted: u64,
    leading: u64,
    line: u64,
    cache: u64,
    way: u64,
    live: u64,
    purpose: &mut [u64; 1],
    chosen: &mut [u64; 1],
    machine: &mut [u64; 4],
    rank: &mut [usize; 1],
    operands: &mut [usize; 1],
    extents: &mut [u64; 64],
    sizes: &mut [u64; 8],
    strides: &mut [i64; 512],
    ranks: &mut [u64; 512],
    weights: &mut [u64; 64],
    costs: &mut [u64; 64],
    plan_counts: &mut [usize; 2],
    plan_extents: &mut [u64; 64],
    blocks: &mut [u64; 64],
    plan_strides: &mut [i64; 512],
) -> i64
    ensures { let old = session_at
        (numbers_at purpose.old chosen.old machine.old rank.old operands.old plan_counts.old)
        extents.old sizes.old strides.old ranks.old weights.old costs.old
        plan_extents.old blocks.old plan_strides.old in
        let new = session_at
        (numbers_at purpose.new chosen.new machine.new rank.new operands.new plan_counts.new)
        extents.new sizes.new strides.new ranks.new weights.new costs.new
        plan_extents.new blocks.new plan_strides.new in
        let t = begun (given (machine_of line cache way live)
        layout_extents.now layout_sizes.now layout_strides.now (purpose_of wanted leading)) in
        Handed (λ s. s) t old new result }
{
    let mut numbers = read_numbers(purpose, chosen, machine, rank, operands, plan_counts);
    let given = Machine {
        line,
        cache,
        way,
        live,
    };
    let aim = Aim {
        purpose: purpose_of(wanted, leading),
        machine: given,
    };
    let answer = begin_lent(
        aim,
        &mut numbers,
        layout_extents,
        layout_sizes,
        layout_strides,
        extents,
        sizes,
        strides,
        ranks,
        weights,
        costs,
        plan_extents,
        blocks,
        plan_strides,
    );
    put_numbers(
        numbers,
        purpose,
        chosen,
        machine,
        rank,
        operands,
        plan_counts,
    );
    code_of(answer)
}

// An operand joins a session.
#[unsafe(no_mangle)]
pub extern "C" fn gougelily_join_session<'a>(
    purpose: &mut [u64; 1],
    chosen: &mut [u64; 1],
    machine: &mut [u64; 4],
    rank: &mut [usize; 1],
    operands: &mut [usize; 1],
    extents: &'a [u64; 64],
    sizes: &mut [u64; 8],
    strides: &mut [i64; 512],
    ranks: &mut [u64; 512],
    weights: &mut [u64; 64],
    costs: &mut [u64; 64],
    plan_counts: &mut [usize; 2],
    plan_extents: &mut [u64; 64],
    blocks: &mut [u64; 64],
    plan_strides: &mut [i64; 512],
    size: u64,
    joining: &'a [i64],
) -> i64
    ensures { let old = session_at
        (numbers_at purpose.old chosen.old machine.old rank.old operands.old plan_counts.old)
        extents.now sizes.old strides.old ranks.old weights.old costs.old
        plan_extents.old blocks.old plan_strides.old in
        let new = session_at
        (numbers_at purpose.new chosen.new machine.new rank.new operands.new plan_counts.new)
        extents.now sizes.new strides.new ranks.new weights.new costs.new
        plan_extents.new blocks.new plan_strides.new in
        let t = joined old size joining.now in
        Handed (λ s. s) t old new result }
{
    let mut numbers = read_numbers(purpose, chosen, machine, rank, operands, plan_counts);
    let answer = join_lent(
        &mut numbers,
        extents,
        sizes,
        strides,
        ranks,
        weights,
        costs,
        plan_extents,
        blocks,
        plan_strides,
        size,
        joining,
    );
    put_numbers(
        numbers,
        purpose,
        chosen,
        machine,
        rank,
        operands,
        plan_counts,
    );
    code_of(answer)
}

// An operand leaves a session.
#[unsafe(no_mangle)]
pub extern "C" fn gougelily_leave_session<'a>(
    purpose: &mut [u64; 1],
    chosen: &mut [u64; 1],
    machine: &mut [u64; 4],
    rank: &mut [usize; 1],
    operands: &mut [usize; 1],
    extents: &'a [u64; 64],
    sizes: &mut [u64; 8],
    strides: &mut [i64; 512],
    ranks: &mut [u64; 512],
    weights: &mut [u64; 64],
    costs: &mut [u64; 64],
    plan_counts: &mut [usize; 2],
    plan_extents: &mut [u64; 64],
    blocks: &mut [u64; 64],
    plan_strides: &mut [i64; 512],
    operand: u64,
) -> i64
    ensures { let old = session_at
        (numbers_at purpose.old chosen.old machine.old rank.old operands.old plan_counts.old)
        extents.now sizes.old strides.old ranks.old weights.old costs.old
        plan_extents.old blocks.old plan_strides.old in
        let new = session_at
        (numbers_at purpose.new chosen.new machine.new rank.new operands.new plan_counts.new)
        extents.now sizes.new strides.new ranks.new weights.new costs.new
        plan_extents.new blocks.new plan_strides.new in
        let t = left old operand in
        Handed (λ s. s) t old new result }
{
    let mut numbers = read_numbers(purpose, chosen, machine, rank, operands, plan_counts);
    let answer = leave_lent(
        &mut numbers,
        extents,
        sizes,
        strides,
        ranks,
        weights,
        costs,
        plan_extents,
        blocks,
        plan_strides,
        operand,
    );
    put_numbers(
        numbers,
        purpose,
        chosen,
        machine,
        rank,
        operands,
        plan_counts,
    );
    code_of(answer)
}
