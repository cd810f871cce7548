// THE TEXT ENTRY: a layout as text goes in, the lines of its plan and of its blocks come out. A text is read, judged and planned before a
// byte is written, and its output is measured first, so that a refusal leaves every lent byte as it was.
#![tactic(auto)]

ghost use Rattle.std.specs.Prelude.{◌≡◌};
ghost use Rattle.strided.specs.Text.{Lists};
ghost use Rattle.text.specs.Listed.{Places, listed_layout, listed_numbers};

use kernel::{Aim, plan_into};
use l1::L1Sets;
use layout::{LentPlan, check_layout, operands_wrong, rank_over, total_at_most};
use reading::{Said, read_text};
use strided::{Machine, Purpose, Refusal};
use writing::{Printed, list};

// "total above 1,048,576 in text": so many cells at most.
pub const MAX_TOTAL: u64 = 1048576;

// Lists a layout: rows 1 to 6, row 13, and the output of its plan for the fixed four.
fn list_layout<'a>(
    extents: &'a [u64],
    sizes: &'a [u64],
    strides: &'a [i64],
    purpose: Purpose,
    room: &mut [u8],
) -> Result<usize, Refusal>
    ensures { record { answer = result; room = room.new }
        ≡ listed_layout extents.now sizes.now strides.now purpose room.old }
{
    // Above the refusals: behind them these arrays would be cleared twice, here and there.
    let mut es = [0u64; 64];
    let mut blocks = [0u64; 64];
    let mut table = [0i64; 512];
    let layout = check_layout(extents, sizes, strides, purpose)?;
    if !total_at_most(extents, MAX_TOTAL) {
        return Err(Refusal::TextTotal);
    }
    let machine = Machine {
        line: L1Sets::LINE,
        cache: L1Sets::CACHE,
        way: L1Sets::WAY,
        live: L1Sets::LIVE,
    };
    let aim = Aim { purpose, machine };
    let rank = plan_into(aim, layout, sizes, &mut es, &mut blocks, &mut table);
    let plan = LentPlan {
        rank,
        operands: sizes.len(),
        extents: &es,
        blocks: &blocks,
        strides: &table,
    };
    list(Printed { plan: &plan }, room)
}

// Lists the layout that a text says, whose numbers stand in arrays of 64, 8 and 512 places. A rank or a count of operands that has no places
// there is above the limits of rows 1 and 2.
fn list_numbers<'a>(
    said: Said,
    extents: &'a [u64],
    sizes: &'a [u64],
    strides: &'a [i64],
    room: &mut [u8],
) -> Result<usize, Refusal>
    requires { Places extents.now sizes.now strides.now }
    ensures { record { answer = result; room = room.new }
        ≡ listed_numbers said.rank said.operands extents.now sizes.now strides.now said.purpose room.old }
{
    if rank_over(said.rank) {
        return Err(Refusal::Rank);
    }
    if operands_wrong(said.operands) {
        return Err(Refusal::Operands);
    }
    let count = said.rank * said.operands;
    list_layout(
        &extents[..said.rank],
        &sizes[..said.operands],
        &strides[..count],
        said.purpose,
        room,
    )
}

// WALKLIST: the output's length, or the refusal. Bytes of the room behind the output stay, and all of them on a refusal.
pub fn walklist(text: &[u8], room: &mut [u8]) -> Result<usize, Refusal>
    ensures { Lists text.now room.old (record { answer = result; room = room.new }) }
{
    let mut extents = [0u64; 64];
    let mut sizes = [0u64; 8];
    let mut strides = [0i64; 512];
    let said = read_text(text, &mut extents, &mut sizes, &mut strides).ok_or(Refusal::Form)?;
    list_numbers(said, &extents, &sizes, &strides, room)
}
