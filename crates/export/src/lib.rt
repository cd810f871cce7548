// THE COPY of ask 3: the cells of one operand of a layout, in a lent byte buffer, moved to those of another. It follows the plan of the
// layout for writing operand 0, and its walk, stretch by stretch. Everything is checked before a byte is written.
#![tactic(auto)]

ghost use Rattle.std.specs.Prelude.{◌≡◌, ◌<◌, ◌^◌, T};
ghost use Rattle.std.specs.Int.Signed.{non_neg};
ghost use Rattle.cells.specs.Offsets.{place_at};
ghost use Rattle.export.specs.Export.{copy_done, Done};

use asked::Asked;
use blocks::copy_blocks;
use cells::move_bytes;
use kernel::{Aim, plan_into};
use layout::{LentPlan, check_planning};
use packed::plain_cells;
use rows::check_cells;
use states::begin_on;
use strided::{Machine, Purpose, Refusal};
use width::Width;

mod asked;
mod blocks;
mod packed;
mod patch;
mod rows;
mod width;

// The copy of a layout that planning does not refuse: rows 8, 9, 16, 17 and 18, then the cells, as the plan's walk meets them.
fn copy_planned(asked: Asked, destination: &mut [u8], source: &[u8]) -> Result<(), Refusal>
    ensures { let a = asked.entry in Done (copy_done a.machine a.layout.extents.now a.sizes.now a.layout.strides.now a.starts.now destination.old source.now)
        destination.old destination.new result }
{
    if asked.starts.len() != asked.sizes.len() {
        return Err(Refusal::StartCount);
    }
    let mut e = [0u64; 64];
    let mut b = [0u64; 64];
    let mut s = [0i64; 512];
    let purpose = Purpose::PointwiseInto(0);
    let aim = Aim {
        purpose,
        machine: asked.machine,
    };
    let rank = plan_into(aim, asked.layout, asked.sizes, &mut e, &mut b, &mut s);
    let plan = LentPlan {
        rank,
        operands: asked.sizes.len(),
        extents: &e,
        blocks: &b,
        strides: &s,
    };
    let walk = begin_on(&plan, asked.starts)?;
    let width = check_cells(asked, destination.len(), source.len())?;
    copy_blocks(&plan, width, walk, destination, source);
    Ok(())
}

// Where the bytes of an operand begin that starts at a cell of its buffer.
fn first_byte(start: i64, width: Width) -> usize
    requires { T (non_neg start) × (place_at width.bytes start < 2 ^ 63) }
    ensures { result ≡ place_at width.bytes start }
{
    (start as usize) * width.bytes
}

// The copy of a layout that planning does not refuse: one move of bytes where nothing is refused and the cells lie without gaps, and else
// by the plan.
fn copy_accepted(asked: Asked, destination: &mut [u8], source: &[u8]) -> Result<(), Refusal>
    ensures { let a = asked.entry in Done (copy_done a.machine a.layout.extents.now a.sizes.now a.layout.strides.now a.starts.now destination.old source.now)
        destination.old destination.new result }
{
    let to = destination.len();
    let from = source.len();
    let Some(cells) = plain_cells(asked, to, from) else {
        return copy_planned(asked, destination, source);
    };
    let d = first_byte(asked.starts[0], cells.width);
    let s = first_byte(asked.starts[1], cells.width);
    let n = (cells.count as usize) * cells.width.bytes;
    move_bytes(&mut destination[d..d + n], &source[s..s + n]);
    Ok(())
}

// THE COPY: rows 1, 2, 3, 24, 5, 6, 8, 9, 16, 17, 18, then the cells. On a refusal the destination keeps every byte.
pub fn copy<'a>(
    extents: &'a [u64],
    sizes: &'a [u64],
    strides: &'a [i64],
    machine: Machine,
    starts: &'a [i64],
    destination: &mut [u8],
    source: &[u8],
) -> Result<(), Refusal>
    ensures { Done (copy_done machine extents.now sizes.now strides.now starts.now
        destination.old source.now) destination.old destination.new result }
{
    let purpose = Purpose::PointwiseInto(0);
    let layout = check_planning(extents, sizes, strides, purpose, machine)?;
    let asked = Asked {
        layout,
        sizes,
        starts,
        machine,
    };
    copy_accepted(asked, destination, source)
}
