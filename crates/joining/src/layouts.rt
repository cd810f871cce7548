// The layout of a session where an operand joins or leaves: its sizes, its strides and the rows of its ranks, and the purpose as two numbers.
ghost use Rattle.std.specs.Prelude.{◌≡◌, [], ◌∷◌, ◌++◌, ◌+◌, ◌-◌, ◌*◌, ◌≤◌, ◌<◌, pos, length, take, drop, replicate};
ghost use Rattle.strided.specs.Base.{padded, over, run};
ghost use Rattle.strided.specs.Ranks.{ranks};
ghost use Rattle.session.specs.Session.{kind_of, old_place, new_place, purpose_without};
ghost use Rattle.session.specs.Made.{Even, rows_of};

use auxiliary::index_order_into;
use layout::Row;
use strided::Purpose;

// ---- the purpose

// 0, 1 or 2, as a C program tells it.
// Kept: a function, as `layout::{purpose_of, lead}` are: the kind is one of two numbers that tell a purpose, and a `From` into a bare number would
// not say which of them it is.
pub fn kind_of(purpose: Purpose) -> u64
    ensures { result ≡ kind_of purpose }
{
    match purpose {
        Purpose::Pointwise => 0,
        Purpose::PointwiseInto(_) => 1,
        Purpose::Fold(_) => 2,
    }
}

// The number of an operand after operand k has left.
fn new_place(k: u64, chosen: u64) -> u64
    ensures { result ≡ new_place k chosen }
{
    if k < chosen { chosen - 1 } else { chosen }
}

// The purpose after operand k has left. The chosen operand moves with its data; where it is the one that left there is none, or operand 0
// orders the fold.
pub fn purpose_without(k: u64, purpose: Purpose) -> Purpose
    ensures { result ≡ purpose_without k purpose }
{
    match purpose {
        Purpose::Pointwise => Purpose::Pointwise,
        Purpose::PointwiseInto(c) => {
            if c == k {
                Purpose::Pointwise
            } else {
                Purpose::PointwiseInto(new_place(k, c))
            }
        }
        Purpose::Fold(c) => {
            if c == k {
                Purpose::Fold(0)
            } else {
                Purpose::Fold(new_place(k, c))
            }
        }
    }
}

// ---- a layout's strides, laid into an array

// Strides put behind the first `at` of an array that is 0 from there on.
pub fn put_strides(out: &mut [i64; 512], at: usize, row: &[i64])
    requires out_value { out.old ≡ padded 512 (pos 0) (take at out.old) }
    requires row_bound { at + length row.now ≤ 512 }
    ensures { out.new ≡ padded 512 (pos 0) (take at out.old ++ row.now) }
{
    out[at..at + row.len()].copy_from_slice(row);
}

// ---- an operand leaves

// Places cleared. `fill` would ask for a clone that cannot fail, which `Copy` does not say.
fn clear<T: Copy>(out: &mut [T], zero: T)
    ensures { out.new ≡ replicate (length out.old) zero }
{
    out.fill_with(|| zero);
}

// Row k taken out of rows of `width` places, behind which the array is all zeros; the later ones move up.
pub fn drop_row<T: Copy>(out: &mut [T], width: usize, rows: usize, k: usize, zero: T)
    requires k_lt_rows { (k < rows) × (width * rows ≤ length out.old) }
    requires out_value { out.old ≡ padded (length out.old) zero (take (width * rows) out.old) }
    ensures { out.new ≡ padded (length out.old) zero (over (run 0 (rows - 1)) (λ j. take width (drop (old_place k j * width) out.old))) }
{
    let end = width * rows;
    out.copy_within((k + 1) * width..end, k * width);
    clear(&mut out[end - width..end], zero);
}

// ---- ranks

// The ranks of a new operand's strides, put into the row behind those of the others.
pub fn add_row(table: &mut [[u8; 64]; 8], operands: usize, row: Row)
    requires operands_bound { operands < 8 }
    requires table_value { table.old ≡ padded 8 (replicate 64 0) (take operands table.old) }
    ensures { table.new ≡ padded 8 (replicate 64 0) (take operands table.old ++ (padded 64 0 (ranks row.entry.strides.now) ∷ [])) }
{
    index_order_into(row, &mut table[operands]);
}

// A row of ranks, put behind the first `at` places of an array that is 0 from there on.
pub fn put_row(row: &[u8; 64], at: usize, out: &mut [u64; 512])
    requires out_value { out.old ≡ padded 512 0 (take at out.old) }
    requires at_bound { at + 64 ≤ 512 }
    ensures { out.new ≡ padded 512 0 (take at out.old ++ row.now) }
{
    for i in 0..64 {
        out[at + i] = u64::from(row[i]);
    }
}

// The rows of ranks of the operands, one behind the other, written into an array of zeros.
// Kept: `operands` beside the table, which has rows for eight: the definition, `rows_of`, reads a table's first rows so, and the caller has the
// table whole.
pub fn ranks_into(table: &[[u8; 64]; 8], operands: usize, out: &mut [u64; 512])
    requires operands_bound { operands ≤ 8 }
    requires even { Even table.now }
    requires out_value { out.old ≡ replicate 512 0 }
    ensures { out.new ≡ padded 512 0 (rows_of table.now operands) }
{
    for k in 0..operands {
        put_row(&table[k], k * 64, out);
    }
}
