// The layout that is judged: whether a run stays in it, where a run begins in the mark buffer, and how far a step goes there.
ghost use Rattle.std.specs.Prelude.{◌≡◌, cond, ◌+◌, ◌≤◌, ◌<◌, leb, eqb, length};
ghost use Rattle.strided.specs.Layout.{total, NoZero, Within};
ghost use Rattle.judge.specs.Readers.{stays};
ghost use Rattle.judge.specs.Laying.{place, step_of};

use super::run::Run;

// Its extents: at most 64, of at most 65,536 cells.
#[derive(Clone, Copy)]
pub struct Cells<'a> {
    pub extents: &'a [u64],
    pub ghost few: { length extents.now ≤ 64 },
    pub ghost small: { total extents.now ≤ 65536 },
}

// How many indices of axis i the run takes.
fn span(i: usize, run: Run) -> u64
    ensures { result ≡ cond (eqb i run.axis) run.len 1 }
{
    if i == run.axis { run.len as u64 } else { 1 }
}

// Whether n indices from x on lie below e.
fn below(x: u64, n: u64, e: u64) -> bool
    ensures { result ≡ leb (x + n) e }
{
    n <= e && x <= e - n
}

impl<'a> Cells<'a> {
    pub fn stays(self, index: &[u64], run: Run) -> bool
        requires { length index.now ≡ length self.extents.now }
        ensures { result ≡ stays self.entry.extents.now index.now run.axis run.len }
    {
        (0..self.extents.len()).all(|i| below(index[i], span(i, run), self.extents[i]))
    }

    // The place of an index: Horner, from the last axis on.
    pub fn place_of(self, index: &[u64]) -> usize
        requires { Within self.extents.now index.now }
        ensures { result ≡ place self.entry.extents.now index.now }
    {
        let mut at: usize = 0;
        for i in (0..self.extents.len()).rev() {
            at = at * (self.extents[i] as usize) + (index[i] as usize);
        }
        at
    }

    // One further along the axis.
    pub fn step_at(self, axis: usize) -> usize
        requires { (NoZero self.extents.now) × (axis < length self.extents.now) }
        ensures { result ≡ step_of self.entry.extents.now axis }
    {
        let mut step: usize = 1;
        for extent in &self.extents[..axis] {
            step *= *extent as usize;
        }
        step
    }
}
