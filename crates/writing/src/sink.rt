// Where lines go. They are measured or written, and one walk does both: it hands each line on, and asks no more than whether it had room.
ghost use Rattle.std.specs.Prelude.{◌≡◌, List, ℕ, ◌+◌, ◌<◌, ◌≤◌, ⊤, length};
ghost use Rattle.strided.specs.Text.{line_of};
ghost use Rattle.writing.specs.Put.{Wrote};
ghost use Rattle.writing.specs.Line.{fields_of};
ghost use Rattle.writing.specs.Sink.{Sinks, Goes, counter_laws, place_laws};

use super::line::Line;

pub trait Sink: Copy {
    // What is asked of a text that goes there; that it went, from the bytes that are lent to the bytes afterwards; that it had no room.
    ghost May: { Self → List ℕ → List ℕ → Type 0 };

    ghost Took: { Self → List ℕ → List ℕ → Self → List ℕ → Type 0 };

    ghost Full: { Self → List ℕ → Type 0 };

    // Takes a line: what is behind it, if it had room.
    fn take<'a, 'b>(self, line: Line<'a, 'b>, out: &mut [u8]) -> Option<Self>
        requires { May self out.old (line_of line.letter (fields_of line.numbers.now line.signed.now)) }
        ensures { let l = line.entry in Goes Took Full self out.old (line_of l.letter (fields_of l.numbers.now l.signed.now)) out.new result };

    ghost laws: { Sinks May Took Full };
}

// Lines are measured: so many bytes are left.
#[derive(Clone, Copy)]
pub struct Counter {
    pub left: usize,
}

impl Sink for Counter {
    ghost May = { λ s out t. ⊤ };

    ghost Took = { λ s out t s' out'. s.left ≡ length t + s'.left };

    ghost Full = { λ s t. s.left < length t };

    ghost laws = { counter_laws };

    fn take<'a, 'b>(self, line: Line<'a, 'b>, out: &mut [u8]) -> Option<Self> {
        let left = self.left.checked_sub(line.text_len())?;
        Some(Counter { left })
    }
}

// Lines are written into the bytes that are lent, from a place on. They have room there.
#[derive(Clone, Copy)]
pub struct Place {
    pub at: usize,
}

impl Sink for Place {
    ghost May = { λ s out t. s.at + length t ≤ length out };

    ghost Took = { λ s out t s' out'. (s.at + length t ≤ length out) × Wrote out s.at t out' s'.at };

    ghost Full = { λ s t. ⊥ };

    ghost laws = { place_laws };

    fn take<'a, 'b>(self, line: Line<'a, 'b>, out: &mut [u8]) -> Option<Self> {
        let at = line.put(out, self.at);
        Some(Place { at })
    }
}
