// A layout with what a window takes of it, once row 15 has counted the lists.
ghost use Rattle.std.specs.Prelude.{◌≡◌, ◌<◌, pos, length, get_or};
ghost use Rattle.window.specs.Counted.{Counted};

use super::Picks;
use super::axis::Pick;
use layout::Layout;

// Each list of the picks has one entry for each axis.
#[derive(Clone, Copy)]
pub struct Selection<'l, 'p> {
    pub layout: Layout<'l>,
    pub picks: Picks<'p>,
    pub ghost counted: { Counted (length layout.extents.now) picks.firsts.now picks.counts.now picks.steps.now },
}

impl<'l, 'p> Selection<'l, 'p> {
    // What is taken along axis i.
    pub fn at(self, i: usize) -> Pick
        requires { i < length self.layout.extents.now }
        ensures { let w = self.entry.picks in
            (result.first ≡ get_or w.firsts.now i 0) × (result.count ≡ get_or w.counts.now i 0) × (result.step ≡ get_or w.steps.now i (pos 0)) }
    {
        let picks = self.picks;
        Pick {
            first: picks.firsts[i],
            count: picks.counts[i],
            step: picks.steps[i],
        }
    }
}
