// Windows of a layout: per axis a first index, a count and a signed step that is not 0. A window is a layout of its own, with the same
// operands, and a shift of each operand's start.
#![tactic(auto)]

ghost use Rattle.std.specs.Prelude.{◌≡◌};
ghost use Rattle.layout.specs.Checked.{Checked};
ghost use Rattle.window.specs.Window.{window_refused, windowed};
ghost use Rattle.window.specs.Layouts.{WindowTaken};
ghost use Rattle.window.specs.Made.{Zeros, Made};

use layout::{Layout, check_layout, lay_into};
use rows::window_wrong;
use selection::Selection;
use shifts::shifts_into;
use strided::{Purpose, Refusal};
use strides::strides_into;

mod axis;
mod rows;
mod selection;
mod shifts;
mod strides;

// What a window takes along each axis: a first index, a count and a signed step. Row 15 judges these.
#[derive(Clone, Copy)]
pub struct Picks<'a> {
    pub firsts: &'a [u64],
    pub counts: &'a [u64],
    pub steps: &'a [i64],
}

// The window's layout: its extents, and its strides one after the other with `rank` of them for each operand, as a layout has them. Places
// behind the counts are 0. `shifts` is to be added to the starts, one for each operand.
#[derive(Clone, Copy)]
pub struct Windowed {
    pub rank: usize,
    pub operands: usize,
    pub extents: [u64; 64],
    pub strides: [i64; 512],
    pub shifts: [i64; 8],
}

// The parent's layout, or what a window is refused for: rows 1, 2, 3, 5 and 6 of the parent, and 15. Row 4 lets every layout through that has
// no chosen operand.
pub fn check_window<'a>(
    extents: &'a [u64],
    sizes: &'a [u64],
    strides: &'a [i64],
    picks: Picks,
) -> Result<Layout<'a>, Refusal>
    ensures { let w = picks.entry in
        Checked (window_refused extents.now sizes.now strides.now w.firsts.now w.counts.now w.steps.now) extents.now sizes.now strides.now result }
{
    let layout = check_layout(extents, sizes, strides, Purpose::Pointwise)?;
    if window_wrong(layout, picks) {
        return Err(Refusal::Window);
    }
    Ok(layout)
}

// A window that is not refused, made in arrays of zeros: for whoever has checked it.
pub fn window_into(
    layout: Layout,
    picks: Picks,
    es: &mut [u64; 64],
    table: &mut [i64; 512],
    shifts: &mut [i64; 8],
)
    requires window_taken { WindowTaken layout.extents.now layout.operands layout.strides.now picks.firsts.now picks.counts.now picks.steps.now }
    requires zeros { Zeros es.old table.old shifts.old }
    ensures { let l = layout.entry in
        let w = picks.entry in
        Made l.extents.now l.operands l.strides.now w.firsts.now w.counts.now w.steps.now es.new table.new shifts.new }
{
    let selection = Selection { layout, picks };
    lay_into(picks.counts, es);
    strides_into(selection, table);
    shifts_into(selection, shifts);
}

// A WINDOW of a layout: its own layout, and the shifts.
pub fn window(
    extents: &[u64],
    sizes: &[u64],
    strides: &[i64],
    picks: Picks,
) -> Result<Windowed, Refusal>
    ensures { let w = picks.entry in
        result ≡ windowed extents.now sizes.now strides.now w.firsts.now w.counts.now w.steps.now }
{
    let layout = check_window(extents, sizes, strides, picks)?;
    let mut es = [0u64; 64];
    let mut table = [0i64; 512];
    let mut shifts = [0i64; 8];
    window_into(layout, picks, &mut es, &mut table, &mut shifts);
    Ok(Windowed {
        rank: extents.len(),
        operands: sizes.len(),
        extents: es,
        strides: table,
        shifts,
    })
}
