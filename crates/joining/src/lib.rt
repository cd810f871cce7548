// A session begins, an operand joins it, an operand leaves it: where the session lies in lent arrays, and by value.
#![tactic(auto)]

ghost use Rattle.session.specs.Session.{given, begun, joined, left};
ghost use Rattle.session.specs.Made.{session_at, Lent};

use kernel::Aim;
use layout::{check_planning, lay_into};
use moves::{add_operand, begun, clear_plan, drop_operand, grown, keep, lay_operands, shrunk};
use session::{LentSession, Numbers, SessionLayout, check_join, check_leave};
use strided::Refusal;
pub use values::{begin, join, leave};

mod layouts;
mod moves;
pub mod values;

// Kept: a session's numbers and arrays are lent one by one as C lends them, and so are those that `keep` fills: a struct of `&mut` fields would
// say in each contract of each field that it is lent on, and is no plainer.

// A SESSION BEGINS in lent numbers and arrays, with any layout that planning accepts: rows 1 to 4, 24, 5, 6. On a refusal every byte is as it
// was.
pub fn begin_lent<'a>(
    aim: Aim,
    numbers: &mut Numbers,
    layout_extents: &'a [u64],
    layout_sizes: &'a [u64],
    layout_strides: &'a [i64],
    extents: &mut [u64; 64],
    sizes: &mut [u64; 8],
    strides: &mut [i64; 512],
    ranks: &mut [u64; 512],
    weights: &mut [u64; 64],
    costs: &mut [u64; 64],
    plan_extents: &mut [u64; 64],
    blocks: &mut [u64; 64],
    plan_strides: &mut [i64; 512],
) -> Result<(), Refusal>
    ensures { let old = session_at numbers.old extents.old sizes.old strides.old ranks.old
        weights.old costs.old plan_extents.old blocks.old plan_strides.old in
        let new = session_at numbers.new extents.new sizes.new strides.new ranks.new
        weights.new costs.new plan_extents.new blocks.new plan_strides.new in
        let g = given aim.machine layout_extents.now layout_sizes.now layout_strides.now aim.purpose in
        Lent (begun g) old new result }
{
    let layout = check_planning(
        layout_extents,
        layout_sizes,
        layout_strides,
        aim.purpose,
        aim.machine,
    )?;
    let rank = layout_extents.len();
    let mut table = [[0u8; 64]; 8];
    *extents = [0u64; 64];
    lay_into(layout_extents, &mut *extents);
    lay_operands(
        layout,
        layout_sizes,
        &mut table,
        &mut *sizes,
        &mut *strides,
        ranks,
    );
    *plan_strides = [0i64; 512];
    let laid = SessionLayout {
        numbers: begun(aim, rank, layout_sizes.len()),
        extents,
        sizes,
        strides,
    };
    *numbers = keep(
        &laid,
        &table,
        weights,
        costs,
        plan_extents,
        blocks,
        plan_strides,
    );
    Ok(())
}

// AN OPERAND of a size and a stride for each axis JOINS a lent session at the end: rows 10, 20, 3, 6. Its ranks alone are worked out anew,
// weights, costs and plan follow. On a refusal every byte is as it was.
pub fn join_lent<'a>(
    numbers: &mut Numbers,
    extents: &'a [u64; 64],
    sizes: &mut [u64; 8],
    strides: &mut [i64; 512],
    ranks: &mut [u64; 512],
    weights: &mut [u64; 64],
    costs: &mut [u64; 64],
    plan_extents: &mut [u64; 64],
    blocks: &mut [u64; 64],
    plan_strides: &mut [i64; 512],
    size: u64,
    joining: &'a [i64],
) -> Result<(), Refusal>
    ensures { let old = session_at numbers.old extents.now sizes.old strides.old ranks.old
        weights.old costs.old plan_extents.old blocks.old plan_strides.old in
        let new = session_at numbers.new extents.now sizes.new strides.new ranks.new
        weights.new costs.new plan_extents.new blocks.new plan_strides.new in
        Lent (joined old size joining.now) old new result }
{
    let mut table = [[0u8; 64]; 8];
    let session = LentSession {
        numbers: *numbers,
        extents,
        sizes,
        strides,
        ranks,
        weights,
        costs,
        plan_extents,
        blocks,
        plan_strides,
    };
    check_join(&session, joining, &mut table)?;
    add_operand(
        *numbers,
        size,
        joining,
        &mut table,
        &mut *sizes,
        &mut *strides,
        ranks,
    );
    clear_plan(*numbers, &mut *plan_strides);
    let laid = SessionLayout {
        numbers: grown(*numbers),
        extents,
        sizes,
        strides,
    };
    *numbers = keep(
        &laid,
        &table,
        weights,
        costs,
        plan_extents,
        blocks,
        plan_strides,
    );
    Ok(())
}

// OPERAND `operand` LEAVES a lent session, and the later ones move up: rows 10, 21. The ranks of those that stay are kept. On a refusal every
// byte is as it was.
// Kept: beside `join_lent`. What is alike is in `keep`; a closure over the lent places for the call that differs, with its contract, is no
// plainer, and neither is a head or a tail with all of them as parameters.
pub fn leave_lent<'a>(
    numbers: &mut Numbers,
    extents: &'a [u64; 64],
    sizes: &mut [u64; 8],
    strides: &mut [i64; 512],
    ranks: &mut [u64; 512],
    weights: &mut [u64; 64],
    costs: &mut [u64; 64],
    plan_extents: &mut [u64; 64],
    blocks: &mut [u64; 64],
    plan_strides: &mut [i64; 512],
    operand: u64,
) -> Result<(), Refusal>
    ensures { let old = session_at numbers.old extents.now sizes.old strides.old ranks.old
        weights.old costs.old plan_extents.old blocks.old plan_strides.old in
        let new = session_at numbers.new extents.now sizes.new strides.new ranks.new
        weights.new costs.new plan_extents.new blocks.new plan_strides.new in
        Lent (left old operand) old new result }
{
    let mut table = [[0u8; 64]; 8];
    let session = LentSession {
        numbers: *numbers,
        extents,
        sizes,
        strides,
        ranks,
        weights,
        costs,
        plan_extents,
        blocks,
        plan_strides,
    };
    check_leave(&session, operand, &mut table)?;
    drop_operand(
        *numbers,
        operand as usize,
        &mut table,
        &mut *sizes,
        &mut *strides,
        ranks,
    );
    clear_plan(*numbers, &mut *plan_strides);
    let laid = SessionLayout {
        numbers: shrunk(*numbers, operand),
        extents,
        sizes,
        strides,
    };
    *numbers = keep(
        &laid,
        &table,
        weights,
        costs,
        plan_extents,
        blocks,
        plan_strides,
    );
    Ok(())
}
