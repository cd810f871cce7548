// The values that the planner's entries take and hand out, and their limits. This crate has no function: what each value means and what
// each entry answers is said in specs/, a file for each section of document 01.
#![tactic(auto)]

// "Rank is 0 to 64", "1 to 8 operands".
pub const MAX_RANK: usize = 64;

pub const MAX_OPERANDS: usize = 8;

// What a plan is for: pointwise with no chosen operand, pointwise into the chosen destination, or a fold ordered by the chosen operand.
#[derive(Clone, Copy)]
pub enum Purpose {
    Pointwise,
    PointwiseInto(u64),
    Fold(u64),
}

// The machine that a plan is made for: the bytes of a cache line and of the cache, the bytes of a way of the L1 cache, and the lines of a
// set that may be live. specs/Machine says which are allowed.
#[derive(Clone, Copy)]
pub struct Machine {
    pub line: u64,
    pub cache: u64,
    pub way: u64,
    pub live: u64,
}

// The rows of the refusal table with their numbers, 1 to 24 but for 7, which is given no longer. specs/Refusals has the rows.
#[derive(Clone, Copy, Debug, PartialEq, Eq)]
pub enum Refusal {
    Rank = 1,
    Operands = 2,
    StrideCount = 3,
    Chosen = 4,
    Total = 5,
    Reach = 6,
    StartCount = 8,
    Offsets = 9,
    State = 10,
    Index = 11,
    Form = 12,
    TextTotal = 13,
    Room = 14,
    Window = 15,
    CopySizes = 16,
    Buffer = 17,
    Repeats = 18,
    ByteStrides = 19,
    Ninth = 20,
    Leaving = 21,
    Slice = 22,
    Visits = 23,
    Record = 24,
}

// Operand k's stride on axis i stands at k * 64 + i. Places behind the counts are 0 in a plan handed out, and are not looked at in one
// handed in.
#[derive(Clone, Copy)]
pub struct Plan {
    pub rank: usize,
    pub operands: usize,
    pub extents: [u64; 64],
    pub blocks: [u64; 64],
    pub strides: [i64; 512],
}

// An original index or a plan index: the first `count` places.
#[derive(Clone, Copy)]
pub struct Told {
    pub count: usize,
    pub index: [u64; 64],
}

// Where the next block starts; or the walk has ended, with counters 0 and every offset at its start.
#[derive(Clone, Copy)]
pub struct Walk {
    pub ended: bool,
    pub counters: [u64; 64],
    pub offsets: [i64; 8],
}

// A block: the plan index of its first cell, its length, and for each operand the first offset and the stride of axis 0.
#[derive(Clone, Copy)]
pub struct Block {
    pub counters: [u64; 64],
    pub length: u64,
    pub offsets: [i64; 8],
    pub strides: [i64; 8],
}

// What a step hands out: a block, or none where the walk has ended, and the state to hand to the next step.
#[derive(Clone, Copy)]
pub struct Stepped {
    pub block: Option<Block>,
    pub walk: Walk,
}

// What many steps in one call hand out: how many blocks were written to the lent slices, or none where the walk had ended, and the state to
// hand to the next call.
#[derive(Clone, Copy)]
pub struct Several {
    pub blocks: Option<usize>,
    pub walk: Walk,
}

// The repeat mark of an operand: no two indices share an offset, two do, or it is not decided.
#[derive(Clone, Copy, Debug, PartialEq, Eq)]
pub enum Mark {
    No,
    Yes,
    Undecided,
}
