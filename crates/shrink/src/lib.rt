// The blocks of a tail shortened until their region fits the cache: halving, then single steps of 1, most of which are one jump. The block
// to shorten is the one with the greatest score.
#![tactic(auto)]

ghost use Rattle.std.specs.Prelude.{◌≡◌, ◌<◌, ◌≤◌, ◌*◌, min};
ghost use Rattle.strided.specs.Region.{region};
ghost use Rattle.strided.specs.Cut.{score, greatest_score, halved, lessened, shrunk};
ghost use Rattle.region.specs.Tail.{axes};
ghost use Rattle.laws.specs.Cut.Steps.{ScoresFit};
ghost use Rattle.laws.specs.Cut.Picks.{top_of};
ghost use Rattle.laws.specs.Cut.Jump.{clipped_over};
ghost use Rattle.laws.specs.Cut.Level.{Least};
ghost use Rattle.laws.specs.Cut.Saturate.{cap};
ghost use Rattle.shrink.specs.Rules.{Shortens};

use region::{Tail, memory_region};

// The blocks of a tail beside the costs of its axes. Their scores, (block - 1) * cost, fit 64 bits.
#[derive(Clone, Copy)]
struct Scores<'a> {
    tail: Tail<'a>,
    costs: &'a [u64; 64],
    blocks: &'a [u64; 64],
    ghost fit: { ScoresFit tail.rank costs.now blocks.now },
}

impl<'a> Scores<'a> {
    // The score of axis i.
    fn at(self, i: usize) -> u64
        requires { i < self.tail.rank }
        ensures { let s = self.entry in result ≡ score s.blocks.now s.costs.now i }
    {
        self.blocks[i].saturating_sub(1) * self.costs[i]
    }
}

// The greatest score over the blocks above 1 of the tail whose axis has a cost; the last wins ties. Any other score is 0, and the
// score to reach is 1 at first.
fn last_argmax_weighted(scores: Scores) -> Option<usize>
    ensures { let s = scores.entry in result ≡ greatest_score s.blocks.now s.costs.now s.tail.offset (axes s.tail) }
{
    let mut best = None;
    let mut top: u64 = 1;
    for i in scores.tail.offset..scores.tail.rank {
        let s = scores.at(i);
        if s >= top {
            best = Some(i);
            top = s;
        }
    }
    best
}

// While the region is `least` or above, the picked block becomes what `f` makes of it. A region above twice the cache is told as one just above.
// It is handed in, `r`, and that of the blocks that are left is answered: each is worked out once.
// Kept: here, below and in block the clause on the scores. The blocks are lent to be changed, and a struct that held them as `&mut` would ask for
// clauses on its references in each contract.
// Kept: a tail and its costs apart, here, below and in block. What binds the two speaks of the blocks, so that a struct of them would hold no fact.
fn shorten<'a, F: Fn(u64) -> u64>(
    tail: Tail<'a>,
    costs: &'a [u64; 64],
    r: u64,
    blocks: &mut [u64; 64],
    least: u64,
    f: F,
) -> u64
    requires fit { ScoresFit tail.rank costs.now blocks.old }
    requires told { let t = tail in r ≡ min (region t.machine.numbers t.bytes.now t.operands blocks.old t.offset (axes t)) (cap t.machine.numbers) }
    requires callable { F.IsAlwaysCallable f }
    requires limit { least ≤ 2 * tail.machine.numbers.cache }
    requires rule { Shortens (F.post f) least tail.machine.numbers tail.bytes.now tail.operands costs.now tail.offset (axes tail) tail.rank }
    ensures told { let t = tail.entry in result ≡ min (region t.machine.numbers t.bytes.now t.operands blocks.new t.offset (axes t)) (cap t.machine.numbers) }
    ensures rule { let t = tail.entry in (s : Shortens (F.post f) least t.machine.numbers t.bytes.now t.operands costs.now t.offset (axes t) t.rank)
        → blocks.new ≡ s.rule blocks.old }
{
    let mut r = r;
    while least <= r {
        let Some(i) = last_argmax_weighted(Scores {
            tail,
            costs,
            blocks,
        }) else {
            return r;
        };
        blocks[i] = f(blocks[i]);
        r = memory_region(tail, blocks);
    }
    r
}

// Every score above `level` in the tail is taken down to it or below, in one step. What becomes of each block is written into `out`.
fn clip_into(scores: Scores, level: u64, out: &mut [u64; 64])
    ensures { let s = scores.entry in out.new ≡ clipped_over level s.costs.now s.tail.offset (axes s.tail) s.blocks.now out.old }
{
    let tail = scores.tail;
    // Kept: an index. Blocks and costs are read and `out` is written at it.
    for i in tail.offset..tail.rank {
        out[i] = if level < scores.at(i) {
            level / scores.costs[i] + 1
        } else {
            scores.blocks[i]
        };
    }
}

// The greatest score of the tail.
fn top_score(scores: Scores) -> u64
    ensures { let s = scores.entry in result
        ≡ top_of (score s.blocks.now s.costs.now) (greatest_score s.blocks.now s.costs.now s.tail.offset (axes s.tail)) }
{
    let Some(i) = last_argmax_weighted(scores) else {
        return 0;
    };
    scores.at(i)
}

// The score to jump to: the least at which the region of the clipped blocks is still above the cache. Halving the way to it takes 64 turns at
// most.
fn level(scores: Scores) -> u64
    requires { let t = scores.tail in t.machine.numbers.cache
        < region t.machine.numbers t.bytes.now t.operands scores.blocks.now t.offset (axes t) }
    ensures { let s = scores.entry in let t = s.tail in
        Least t.machine.numbers t.bytes.now t.operands s.costs.now t.offset (axes t) s.blocks.now result }
{
    let mut t = *scores.blocks;
    let mut lo: u64 = 0;
    let mut hi = top_score(scores);
    while lo < hi {
        let mid = lo + (hi - lo) / 2;
        clip_into(scores, mid, &mut t);
        if scores.tail.machine.numbers.cache < memory_region(scores.tail, &t) {
            hi = mid;
        } else {
            lo = mid + 1;
        }
    }
    lo
}

// While the region is above the cache, the picked block loses 1. Most of these steps are one jump: below its score each axis has at most one more.
fn lessen<'a>(tail: Tail<'a>, costs: &'a [u64; 64], r: u64, blocks: &mut [u64; 64])
    requires fit { ScoresFit tail.rank costs.now blocks.old }
    requires told { let t = tail in r ≡ min (region t.machine.numbers t.bytes.now t.operands blocks.old t.offset (axes t)) (cap t.machine.numbers) }
    ensures { let t = tail.entry in blocks.new ≡ lessened t.machine.numbers t.bytes.now t.operands costs.now t.offset (axes t) blocks.old }
{
    if r <= tail.machine.numbers.cache {
        return;
    }
    let whole = *blocks;
    let scores = Scores {
        tail,
        costs,
        blocks: &whole,
    };
    clip_into(scores, level(scores), blocks);
    shorten(
        tail,
        costs,
        memory_region(tail, blocks),
        blocks,
        tail.machine.numbers.cache + 1,
        |b| b.saturating_sub(1),
    );
}

// The blocks of the tail: while the region is at least twice the cache, the picked block is halved, rounding up; then they are lessened.
// `r` is their region at first.
pub fn shrink<'a>(tail: Tail<'a>, costs: &'a [u64; 64], r: u64, blocks: &mut [u64; 64])
    requires fit { ScoresFit tail.rank costs.now blocks.old }
    requires told { let t = tail in r ≡ min (region t.machine.numbers t.bytes.now t.operands blocks.old t.offset (axes t)) (cap t.machine.numbers) }
    ensures { let t = tail.entry in blocks.new ≡ shrunk t.machine.numbers t.bytes.now t.operands costs.now t.offset (axes t) blocks.old }
{
    let r = shorten(
        tail,
        costs,
        r,
        blocks,
        2 * tail.machine.numbers.cache,
        |b| b.div_ceil(2),
    );
    lessen(tail, costs, r, blocks);
}
