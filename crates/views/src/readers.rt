// The two views of a visit's record, by value and in lent arrays. A record may hold any numbers: a view is what it says.
ghost use Rattle.std.specs.Prelude.{◌≡◌, min};
ghost use Rattle.views.specs.Views.{engineer_of, student_of};
ghost use Rattle.views.specs.Memory.{record_of, engineer_at, engineer_memory, student_at, student_memory};
ghost use Rattle.views.specs.declared.Visit.{Visit};

use crate::{Student, Visit};
use layout::lay_into;
use std::marker::Model;
use strided::{Block, MAX_RANK, Told};

// A record whose arrays are lent. A contract sees it as the record.
#[derive(Drop)]
pub struct LentVisit<'a> {
    pub number: u64,
    pub counters: &'a [u64; 64],
    pub length: u64,
    pub offsets: &'a [i64; 8],
    pub strides: &'a [i64; 8],
    pub count: usize,
    pub index: &'a [u64; 64],
}

impl<'a> Model for LentVisit<'a> {
    ghost Value = { Visit };

    ghost view = { λ v. record_of v.number v.counters.now v.length v.offsets.now v.strides.now v.count v.index.now };
}

// How many places an index has: a count above 64 is read as 64.
fn count_of(count: usize) -> usize
    ensures { result ≡ min count 64 }
{
    count.min(MAX_RANK)
}

// THE ENGINEER'S VIEW: "a block as now".
pub fn engineer_view(visit: Visit) -> Block
    ensures { result ≡ engineer_of visit }
{
    visit.block
}

// THE STUDENT'S VIEW: "its number as on B lines, its length and the original index of its first cell, and no offset or stride".
pub fn student_view(visit: Visit) -> Student
    ensures { result ≡ student_of visit }
{
    let count = count_of(visit.first.count);
    let first = visit.first.index;
    let mut index = [0u64; 64];
    lay_into(&first[..count], &mut index);
    Student {
        number: visit.number,
        length: visit.block.length,
        first: Told { count, index },
    }
}

// The engineer's view of a record, in lent arrays.
pub fn engineer_into(
    visit: &LentVisit,
    counters: &mut [u64; 64],
    length: &mut [u64; 1],
    offsets: &mut [i64; 8],
    strides: &mut [i64; 8],
)
    ensures { engineer_at counters.new length.new offsets.new strides.new ≡ engineer_memory (engineer_of visit.now) }
{
    *counters = *visit.counters;
    *length = [visit.length];
    *offsets = *visit.offsets;
    *strides = *visit.strides;
}

// The student's view of a record, in lent arrays.
pub fn student_into(
    visit: &LentVisit,
    number: &mut [u64; 1],
    length: &mut [u64; 1],
    count: &mut [usize; 1],
    index: &mut [u64; 64],
)
    ensures { student_at number.new length.new count.new index.new ≡ student_memory (student_of visit.now) }
{
    let few = count_of(visit.count);
    *number = [visit.number];
    *length = [visit.length];
    *count = [few];
    *index = [0u64; 64];
    let first = visit.index;
    lay_into(&first[..few], index);
}
