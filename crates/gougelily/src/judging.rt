// Judging another tool's walk, from C.
ghost use Rattle.std.specs.Prelude.{◌≡◌};
ghost use Rattle.judge.specs.Memory.{verdict_number, JudgesMemory};

use super::codes::code;
use judge::{Verdict, judge};

// The verdict as a number: which of the four it is, counted from 0.
fn verdict_number(verdict: Verdict) -> u64
    ensures { result ≡ verdict_number verdict }
{
    verdict as u64
}

// 0 if the runs of the text meet each index of the layout exactly once; 1 short, 2 double, 3 outside.
#[unsafe(no_mangle)]
pub extern "C" fn gougelily_judge<'a>(extents: &'a [u64], text: &'a [u8], marks: &mut [u8]) -> i64
    ensures { JudgesMemory extents.now text.now marks.old marks.new result }
{
    let judged = judge(extents, text, marks);
    code(judged, |verdict| verdict_number(verdict) as i64)
}
