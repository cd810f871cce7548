// Windows from C: rows 1, 2, 3, 5, 6 and 15, then the window, made where the caller wants it.
ghost use Rattle.window.specs.Window.{windowed};
ghost use Rattle.window.specs.Memory.{Windows};

use window::{Picks, check_window, window_into};

// A window of a layout: its own layout, and a shift of each operand's start.
#[unsafe(no_mangle)]
pub extern "C" fn gougelily_window<'a>(
    extents: &'a [u64],
    sizes: &'a [u64],
    strides: &'a [i64],
    firsts: &'a [u64],
    counts: &'a [u64],
    steps: &'a [i64],
    window_extents: &mut [u64; 64],
    window_strides: &mut [i64; 512],
    shifts: &mut [i64; 8],
) -> i64
    ensures { Windows
        (windowed extents.now sizes.now strides.now firsts.now counts.now steps.now)
        (record { extents = window_extents.old; strides = window_strides.old; shifts = shifts.old })
        (record { extents = window_extents.new; strides = window_strides.new; shifts = shifts.new })
        result }
{
    let picks = Picks {
        firsts,
        counts,
        steps,
    };
    let layout = served!(check_window(extents, sizes, strides, picks));
    *window_extents = [0u64; 64];
    *window_strides = [0i64; 512];
    *shifts = [0i64; 8];
    window_into(layout, picks, window_extents, window_strides, shifts);
    0
}
