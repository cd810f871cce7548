// The memory region of a tile: an estimate of the bytes that it touches, in whole cache lines of a machine. Strides below a line fill
// contiguous lines, larger ones multiply them. Numbers above twice the machine's cache are not told apart: no limit that regions are held
// against is greater.
#![tactic(auto)]

ghost use Rattle.std.specs.Prelude.{◌≡◌, ◌+◌, ◌*◌, ◌/◌, ◌<◌, ◌≤◌, min};
ghost use Rattle.strided.specs.Region.{region_of, region};
ghost use Rattle.laws.specs.Cut.Saturate.{cap};
ghost use Rattle.region.specs.Tail.{axes};

mod tail;

pub use tail::{AllowedMachine, Axes, Cut, Operand, Tail};

// The bytes of the lines up to the one that holds byte c. A line is a power of two, so that shifts divide and multiply by it.
fn whole_lines(machine: AllowedMachine, c: u64) -> u64
    requires { c ≤ 2097153 }
    ensures { result ≡ (c / machine.numbers.line + 1) * machine.numbers.line }
{
    let bits = machine.numbers.line.trailing_zeros();
    ((c >> bits) + 1) << bits
}

// The region of operand k over a tail.
fn region_of(tail: Tail, blocks: &[u64; 64], k: usize) -> u64
    requires { k < tail.operands }
    ensures { let t = tail.entry in result ≡ min (region_of t.machine.numbers t.bytes.now blocks.now t.offset (axes t) k) (cap t.machine.numbers) }
{
    let top = 2 * tail.machine.numbers.cache + 1;
    let from = k * 64;
    let mut c: u64 = 0;
    let mut m: u64 = 1;
    // Kept: an index, at which the blocks stand and, behind `from`, the byte strides. Two parts cut out beforehand would each have two bounds, for
    // two reads.
    for i in tail.offset..tail.rank {
        let s = u64::from(tail.bytes[from + i]);
        let b = blocks[i];
        if s < tail.machine.numbers.line {
            // A block that is cut off is above every limit already; the sum of 64 such terms, and each product, stays small.
            c += s * b.saturating_sub(1).min(top);
        } else {
            m = (m * b.min(top)).min(top);
        }
    }
    (m * whole_lines(tail.machine, c.min(top))).min(top)
}

// The region over a tail, summed over the operands. A sum at the limit stays there: the operands that are left are not looked at.
pub fn memory_region(tail: Tail, blocks: &[u64; 64]) -> u64
    ensures { let t = tail.entry in result ≡ min (region t.machine.numbers t.bytes.now t.operands blocks.now t.offset (axes t)) (cap t.machine.numbers) }
{
    let limit = 2 * tail.machine.numbers.cache + 1;
    let mut r: u64 = 0;
    for k in 0..tail.operands {
        if r == limit {
            return r;
        }
        r = (r + region_of(tail, blocks, k)).min(limit);
    }
    r
}
