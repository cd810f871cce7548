// Sessions: a layout with its purpose and its machine record, to which an operand joins at the end or from which one leaves. A session
// keeps the ranks and weights of the layout's axes, the costs of the plan's axes, and the plan.
#![tactic(auto)]

ghost use Rattle.std.specs.Prelude.{◌≡◌, replicate, Ok};
ghost use Rattle.strided.specs.Refusals.{refused_by, answered};
ghost use Rattle.session.specs.Session.{join_rows, leave_rows};
ghost use Rattle.session.specs.Made.{Tables};

use check::{check_joining, check_leaving, holds};
use std::marker::Model;
use strided::{Machine, Plan, Refusal};

mod check;
mod compare;
pub mod kept;
pub mod layouts;

pub use layouts::SessionLayout;

// A session. The purpose is 0, 1 or 2 as a C program tells it, with `chosen` 0 where there is none. The strides stand one after the other
// with `rank` of them for each operand, as a layout has them; operand k's rank on axis i stands at k * 64 + i. Places behind the counts
// are 0, and a cost of 0 says that the axis has none.
#[derive(Clone, Copy)]
pub struct Session {
    pub purpose: u64,
    pub chosen: u64,
    pub machine: Machine,
    pub rank: usize,
    pub operands: usize,
    pub extents: [u64; 64],
    pub sizes: [u64; 8],
    pub strides: [i64; 512],
    pub ranks: [u64; 512],
    pub weights: [u64; 64],
    pub costs: [u64; 64],
    pub plan: Plan,
}

// The numbers of a session. The rest of it are arrays.
#[derive(Clone, Copy)]
pub struct Numbers {
    pub purpose: u64,
    pub chosen: u64,
    pub machine: Machine,
    pub rank: usize,
    pub operands: usize,
    pub plan_rank: usize,
    pub plan_operands: usize,
}

impl<'a> From<&'a Session> for Numbers {
    ghost use Rattle.session.specs.Made.{numbers_of};

    ghost from_gives = { λ s n. n ≡ numbers_of s.now };

    fn from(session: &'a Session) -> Numbers {
        let plan = &session.plan;
        Numbers {
            purpose: session.purpose,
            chosen: session.chosen,
            machine: session.machine,
            rank: session.rank,
            operands: session.operands,
            plan_rank: plan.rank,
            plan_operands: plan.operands,
        }
    }
}

// A session whose arrays are lent. A contract sees it as the session.
// Kept: what a call changes is lent array by array, as C lends it: a struct of `&mut` fields says in each contract which of them stay.
#[derive(Drop)]
pub struct LentSession<'a> {
    pub numbers: Numbers,
    pub extents: &'a [u64; 64],
    pub sizes: &'a [u64; 8],
    pub strides: &'a [i64; 512],
    pub ranks: &'a [u64; 512],
    pub weights: &'a [u64; 64],
    pub costs: &'a [u64; 64],
    pub plan_extents: &'a [u64; 64],
    pub blocks: &'a [u64; 64],
    pub plan_strides: &'a [i64; 512],
}

impl<'a> Model for LentSession<'a> {
    ghost use Rattle.session.specs.declared.Session.{Session};
    ghost use Rattle.session.specs.Made.{session_at, Whole};

    ghost Value = { Session };

    ghost view = { λ l. session_at l.numbers l.extents.now l.sizes.now l.strides.now l.ranks.now
        l.weights.now l.costs.now l.plan_extents.now l.blocks.now l.plan_strides.now };

    ghost invariant = { λ l. Whole (session_at l.numbers l.extents.now l.sizes.now l.strides.now l.ranks.now
        l.weights.now l.costs.now l.plan_extents.now l.blocks.now l.plan_strides.now) };
}

impl<'a> LentSession<'a> {
    ghost use Rattle.std.specs.Prelude.{◌≡◌, ◌≤◌};
    ghost use Rattle.session.specs.Made.{numbers_of};

    // Its layout.
    pub fn laid(&self) -> SessionLayout<'a>
        requires { (self.now.rank ≤ 64) × (self.now.operands ≤ 8) }
        ensures numbers { result.numbers ≡ numbers_of self.now }
        ensures extents { result.extents.now ≡ self.now.extents }
        ensures sizes { result.sizes.now ≡ self.now.sizes }
        ensures strides { result.strides.now ≡ self.now.strides }
    {
        SessionLayout {
            numbers: self.numbers,
            extents: self.extents,
            sizes: self.sizes,
            strides: self.strides,
        }
    }
}

// What joining is refused for: rows 10, 20, 3 and 6. The table of the session's ranks is left in `table`, which is lent as zeros.
// Kept: the table lent, here and in leaving: see `holds`.
pub fn check_join<'a>(
    session: &LentSession,
    joining: &'a [i64],
    table: &mut [[u8; 64]; 8],
) -> Result<(), Refusal>
    requires { table.old ≡ replicate 8 (replicate 64 0) }
    ensures told { result ≡ answered (refused_by (join_rows session.now joining.now)) }
    ensures table { result ≡ Ok tt → Tables session.now table.new }
{
    if !holds(session, table) {
        return Err(Refusal::State);
    }
    check_joining(session, joining)
}

// What leaving is refused for: rows 10 and 21. The table is left as in joining.
pub fn check_leave(
    session: &LentSession,
    operand: u64,
    table: &mut [[u8; 64]; 8],
) -> Result<(), Refusal>
    requires { table.old ≡ replicate 8 (replicate 64 0) }
    ensures told { result ≡ answered (refused_by (leave_rows session.now operand)) }
    ensures table { result ≡ Ok tt → Tables session.now table.new }
{
    if !holds(session, table) {
        return Err(Refusal::State);
    }
    check_leaving(session.numbers.operands, operand)
}
