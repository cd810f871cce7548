// Cutting: block sizes whose region fits the cache, by the axis ranks, the byte strides and the costs of the plan's axes.
#![tactic(auto)]

ghost use Rattle.std.specs.Prelude.{◌≡◌, ℕ, ◌<◌, min};
ghost use Rattle.strided.specs.Base.{least};
ghost use Rattle.strided.specs.Region.{byte_at, region};
ghost use Rattle.strided.specs.Cut.{rank_at, keeps_first, ones, cutting};
ghost use Rattle.laws.specs.Cut.Saturate.{cap};
ghost use Rattle.laws.specs.Cut.Steps.{ScoresFit};
ghost use Rattle.region.specs.Tail.{axes};

use region::{Tail, memory_region};
use shrink::shrink;

// A tail that has an axis and an operand.
#[derive(Clone, Copy)]
struct NonEmptyTail<'a> {
    tail: Tail<'a>,
    ghost some: { 0 < tail.operands },
    ghost axis: { tail.offset < tail.rank },
}

// A number for each operand and axis: its rank, or its byte stride.
trait Table: Copy {
    ghost at: { Self → ℕ → ℕ → ℕ };

    // The least number of operand k in the tail.
    fn least_at(self, some: NonEmptyTail, k: usize) -> u64
        requires { k < some.tail.operands }
        ensures { let t = some.entry.tail in result ≡ least (at self k) t.offset (axes t) };
}

// Kept: a loop for each table, on numbers of its own width. Bytes are compared sixteen at a time, numbers of 64 bits one by one.
impl<'a> Table for &'a [[u8; 64]; 8] {
    ghost at = { λ t. rank_at t.now };

    fn least_at(self, some: NonEmptyTail, k: usize) -> u64 {
        let row = &self[k];
        let mut m = row[some.tail.offset];
        for i in some.tail.offset + 1..some.tail.rank {
            m = m.min(row[i]);
        }
        u64::from(m)
    }
}

impl<'a> Table for &'a [u32; 512] {
    ghost at = { λ t. byte_at t.now };

    fn least_at(self, some: NonEmptyTail, k: usize) -> u64 {
        let from = k * 64;
        let mut m = self[from + some.tail.offset];
        for i in some.tail.offset + 1..some.tail.rank {
            m = m.min(self[from + i]);
        }
        u64::from(m)
    }
}

// The least number that any operand has in the tail.
fn least_in<T: Table>(table: T, some: NonEmptyTail) -> u64
    ensures { let t = some.entry.tail in result ≡ least (λ k. least (T.at table k) t.offset (axes t)) 0 t.operands }
{
    let mut m = table.least_at(some, 0);
    for k in 1..some.tail.operands {
        m = m.min(table.least_at(some, k));
    }
    m
}

// Whether every operand's first rank is the least rank of the tail.
fn keeps_first(ranks: &[[u8; 64]; 8], some: NonEmptyTail) -> bool
    ensures { let t = some.entry.tail in result ≡ keeps_first ranks.now t.operands t.offset (axes t) }
{
    let m = least_in(ranks, some);
    let first = some.tail.offset;
    (0..some.tail.operands).all(|k| u64::from(ranks[k][first]) == m)
}

// The blocks of the tail become 1.
fn set_ones(tail: Tail, blocks: &mut [u64; 64])
    ensures { let t = tail.entry in blocks.new ≡ ones t.offset (axes t) blocks.old }
{
    blocks[tail.offset..tail.rank].fill(1);
}

// Cutting, on a tail: a first axis that is innermost for every operand is kept whole, and the rule starts over on the next tail. The
// ranks are those of all the plan's axes on every level. `r` is the region of the tail.
// Kept: the clause on the scores, as in shrink, since the blocks are lent to be changed.
pub fn compute_blocks_at<'a>(
    tail: Tail<'a>,
    costs: &'a [u64; 64],
    ranks: [[u8; 64]; 8],
    r: u64,
    blocks: &mut [u64; 64],
)
    requires some { 0 < tail.operands }
    requires fit { ScoresFit tail.rank costs.now blocks.old }
    requires told { let t = tail in r ≡ min (region t.machine.numbers t.bytes.now t.operands blocks.old t.offset (axes t)) (cap t.machine.numbers) }
    ensures { let t = tail.entry in blocks.new ≡ cutting t.machine.numbers t.bytes.now t.operands costs.now ranks t.offset (axes t) blocks.old }
{
    if tail.offset == tail.rank {
        return;
    }
    if r <= tail.machine.numbers.cache {
        return;
    }
    let some = NonEmptyTail { tail };
    if keeps_first(&ranks, some) {
        let offset = tail.offset + 1;
        // Kept: every field. Rattle takes no `..tail` in a literal of a struct with ghost fields.
        let rest = Tail {
            machine: tail.machine,
            bytes: tail.bytes,
            operands: tail.operands,
            offset,
            rank: tail.rank,
        };
        compute_blocks_at(rest, costs, ranks, memory_region(rest, blocks), blocks);
        return;
    }
    if tail.machine.numbers.cache < least_in(tail.bytes, some) {
        set_ones(tail, blocks);
        return;
    }
    shrink(tail, costs, r, blocks);
}
