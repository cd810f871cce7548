// The text entry from C.
ghost use Rattle.strided.specs.Memory.{ListsMemory};

use super::codes::length_code;
use text::walklist;

// The lines of a layout text's plan and blocks. It answers their length; bytes of the room behind them stay.
#[unsafe(no_mangle)]
pub extern "C" fn gougelily_walklist(text: &[u8], room: &mut [u8]) -> i64
    ensures { ListsMemory text.now room.old room.new result }
{
    let listed = walklist(text, room);
    length_code(listed)
}
