// A walk that is lent, to be read: the state where it stands, and whether it has ended.
ghost use Rattle.std.specs.Prelude.{◌≡◌};
ghost use Rattle.strided.specs.Memory.{walk_of};
ghost use Rattle.strided.specs.declared.Walk.{Walk};
ghost use Rattle.states.specs.Lent.{WholeWalk};

use std::marker::Model;
use strided::Walk;

// A contract sees it as the walk. Nothing is copied.
#[derive(Drop)]
pub struct LentWalk<'a> {
    pub ended: bool,
    pub counters: &'a [u64; 64],
    pub offsets: &'a [i64; 8],
}

impl<'a> Model for LentWalk<'a> {
    ghost Value = { Walk };

    ghost view = { λ l. walk_of l.ended l.counters.now l.offsets.now };

    ghost invariant = { λ l. WholeWalk (walk_of l.ended l.counters.now l.offsets.now) };
}

// A walk as it is.
impl<'a> From<&'a Walk> for LentWalk<'a> {
    ghost from_gives = { λ w l. l ≡ w.now };

    fn from(walk: &'a Walk) -> LentWalk<'a> {
        LentWalk {
            ended: walk.ended,
            counters: &walk.counters,
            offsets: &walk.offsets,
        }
    }
}
