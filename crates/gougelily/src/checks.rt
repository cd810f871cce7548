// The check of a layout from C.
ghost use Rattle.std.specs.Prelude.{◌≡◌, pos};
ghost use Rattle.strided.specs.Refusals.{answered, layout_refused};
ghost use Rattle.strided.specs.Memory.{purpose_of, code_of};

use super::codes::code;
use layout::{check_layout, purpose_of};

// 0 if a layout can be planned for a purpose on an allowed machine: rows 1 to 6.
#[unsafe(no_mangle)]
pub extern "C" fn gougelily_check_layout<'a>(
    extents: &'a [u64],
    sizes: &'a [u64],
    strides: &'a [i64],
    purpose: u64,
    chosen: u64,
) -> i64
    ensures { result ≡ code_of (λ value. pos 0) (answered (layout_refused extents.now sizes.now strides.now (purpose_of purpose chosen))) }
{
    let answer = check_layout(extents, sizes, strides, purpose_of(purpose, chosen));
    code(answer, |_| 0)
}
