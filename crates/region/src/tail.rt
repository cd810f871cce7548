// A machine that is allowed, the axes that blocks are cut for, and a tail of them.
ghost use Rattle.std.specs.Prelude.{◌≡◌, ◌≤◌, ◌<◌, length, get_or};
ghost use Rattle.strided.specs.Machine.{Allowed};
ghost use Rattle.laws.specs.Cut.Tables.{stride_size};
ghost use Rattle.laws.specs.Refusals.Allowed.{Allowed-prop};

use strided::Machine;

#[derive(Clone, Copy)]
pub struct AllowedMachine {
    pub numbers: Machine,
    pub ghost allowed: { Allowed numbers } by { Allowed-prop numbers },
}

// The axes of a plan in its arrays, and the sizes of its operands: the stride of operand k on axis i stands at k * 64 + i.
#[derive(Clone, Copy)]
pub struct Axes<'a> {
    pub sizes: &'a [u64],
    pub extents: &'a [u64; 64],
    pub strides: &'a [i64; 512],
    pub rank: usize,
    pub ghost few: { length sizes.now ≤ 8 },
    pub ghost to: { rank ≤ 64 },
    pub ghost all: { length strides.now ≡ 512 },
}

// One operand on these axes, by its number.
#[derive(Clone, Copy)]
pub struct Operand<'a> {
    pub axes: Axes<'a>,
    pub k: usize,
    pub ghost there: { k < length axes.sizes.now },
}

impl<'a> Operand<'a> {
    // The size of its elements.
    pub fn size(self) -> u64
        ensures { let o = self.entry in result ≡ get_or o.axes.sizes.now o.k 0 }
    {
        self.axes.sizes[self.k]
    }

    // The size of its stride on axis i.
    // Kept: `i < 64` here, in decline and in l1. That an axis is one of the arrays' is a fact about a number alone, and a type of such numbers
    // would be taken off again at each place where the number is used.
    pub fn stride_size(self, i: usize) -> u64
        requires { i < 64 }
        ensures { let o = self.entry in result ≡ stride_size o.axes.strides.now o.k i }
    {
        self.axes.strides[self.k * 64 + i].unsigned_abs()
    }
}

// The tail of axes that cutting looks at, those from offset to rank, of so many operands with these byte strides.
#[derive(Clone, Copy)]
pub struct Tail<'a> {
    pub machine: AllowedMachine,
    pub bytes: &'a [u32; 512],
    pub operands: usize,
    pub offset: usize,
    pub rank: usize,
    pub ghost few: { operands ≤ 8 },
    pub ghost from: { offset ≤ rank },
    pub ghost to: { rank ≤ 64 },
}

// What blocks are cut by: a machine, the byte strides in its table, and the axes.
#[derive(Clone, Copy)]
pub struct Cut<'a> {
    pub machine: AllowedMachine,
    pub bytes: &'a [u32; 512],
    pub axes: Axes<'a>,
}

impl<'a> Cut<'a> {
    // The tail of all axes.
    pub fn all(self) -> Tail<'a>
        ensures machine { result.machine.numbers ≡ self.entry.machine.numbers }
        ensures bytes { result.bytes.now ≡ self.entry.bytes.now }
        ensures operands { result.operands ≡ length self.entry.axes.sizes.now }
        ensures offset { result.offset ≡ 0 }
        ensures rank { result.rank ≡ self.entry.axes.rank }
    {
        Tail {
            machine: self.machine,
            bytes: self.bytes,
            operands: self.axes.sizes.len(),
            offset: 0,
            rank: self.axes.rank,
        }
    }
}
