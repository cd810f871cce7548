// The entries by value: a session is taken and returned. Its arrays are lent to the call where they lie, and its numbers put back behind it.
ghost use Rattle.std.specs.Prelude.{◌≡◌};
ghost use Rattle.session.specs.Session.{given, begun as begun_of, joined as joined_of, left as left_of};
ghost use Rattle.session.specs.Made.{session_at};

use super::{begin_lent, join_lent, leave_lent};
use kernel::Aim;
use session::{Numbers, Session};
use strided::{Plan, Refusal};

// Numbers, put back into a session.
fn put_numbers(session: &mut Session, numbers: Numbers)
    ensures { let s = session.old in
        session.new ≡ session_at numbers s.extents s.sizes s.strides s.ranks s.weights s.costs s.plan.extents s.plan.blocks s.plan.strides }
{
    session.purpose = numbers.purpose;
    session.chosen = numbers.chosen;
    session.machine = numbers.machine;
    session.rank = numbers.rank;
    session.operands = numbers.operands;
    session.plan.rank = numbers.plan_rank;
    session.plan.operands = numbers.plan_operands;
}

// A SESSION BEGINS with any layout that planning accepts: rows 1 to 4, 24, 5, 6.
pub fn begin<'a>(
    aim: Aim,
    layout_extents: &'a [u64],
    layout_sizes: &'a [u64],
    layout_strides: &'a [i64],
) -> Result<Session, Refusal>
    ensures { result ≡ begun_of (given aim.machine layout_extents.now layout_sizes.now layout_strides.now aim.purpose) }
{
    let plan = Plan {
        rank: 0,
        operands: 0,
        extents: [0; 64],
        blocks: [0; 64],
        strides: [0; 512],
    };
    let mut fresh = Session {
        purpose: 0,
        chosen: 0,
        machine: aim.machine,
        rank: 0,
        operands: 0,
        extents: [0; 64],
        sizes: [0; 8],
        strides: [0; 512],
        ranks: [0; 512],
        weights: [0; 64],
        costs: [0; 64],
        plan,
    };
    let mut numbers = Numbers::from(&fresh);
    begin_lent(
        aim,
        &mut numbers,
        layout_extents,
        layout_sizes,
        layout_strides,
        &mut fresh.extents,
        &mut fresh.sizes,
        &mut fresh.strides,
        &mut fresh.ranks,
        &mut fresh.weights,
        &mut fresh.costs,
        &mut fresh.plan.extents,
        &mut fresh.plan.blocks,
        &mut fresh.plan.strides,
    )?;
    put_numbers(&mut fresh, numbers);
    Ok(fresh)
}

// AN OPERAND JOINS a session: rows 10, 20, 3, 6.
pub fn join(session: Session, size: u64, joining: &[i64]) -> Result<Session, Refusal>
    ensures { result ≡ joined_of session size joining.now }
{
    let mut after = session;
    let mut numbers = Numbers::from(&after);
    let lent = &mut after;
    join_lent(
        &mut numbers,
        &lent.extents,
        &mut lent.sizes,
        &mut lent.strides,
        &mut lent.ranks,
        &mut lent.weights,
        &mut lent.costs,
        &mut lent.plan.extents,
        &mut lent.plan.blocks,
        &mut lent.plan.strides,
        size,
        joining,
    )?;
    put_numbers(lent, numbers);
    Ok(after)
}

// OPERAND `operand` LEAVES a session, and the later ones move up: rows 10, 21.
// Kept: beside `join`, which differs in one call: a closure over its ten lent places, with its contract, is no plainer.
pub fn leave(session: Session, operand: u64) -> Result<Session, Refusal>
    ensures { result ≡ left_of session operand }
{
    let mut after = session;
    let mut numbers = Numbers::from(&after);
    let lent = &mut after;
    leave_lent(
        &mut numbers,
        &lent.extents,
        &mut lent.sizes,
        &mut lent.strides,
        &mut lent.ranks,
        &mut lent.weights,
        &mut lent.costs,
        &mut lent.plan.extents,
        &mut lent.plan.blocks,
        &mut lent.plan.strides,
        operand,
    )?;
    put_numbers(lent, numbers);
    Ok(after)
}
