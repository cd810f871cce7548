// Index finding: the original index of a plan index, and the plan index of an original index. Both work from the layout and the purpose
// alone, so a caller needs no plan at hand. What they need of the plan is a map, which is made once.
#![tactic(auto)]

ghost use Rattle.std.specs.Prelude.{◌≡◌, ◌^◌, ◌<◌, length, take, replicate};
ghost use Rattle.strided.specs.Layout.{total};
ghost use Rattle.strided.specs.Index.{told_original, told_plan};
ghost use Rattle.finding.specs.Mapped.{Fused, Mapped, Usable, kept_extents, unraveled_by, raveled_by, found_original, TellsOriginal, TellsPlan};
ghost use Rattle.finding.specs.Memory.{Leaves};

use fuse::fused_into;
use layout::{Layout, check_layout, within};
use radix::{LentMap, plan_rank, plan_within};
use strided::{Purpose, Refusal, Told};

pub mod radix;

// ---- the map

// The map between a layout's indices and its plan's: the order that the layout's axes are fused in, their extents in that order after
// fusing, and how many axes the plan has.
#[derive(Clone, Copy)]
pub struct Map {
    pub rank: usize,
    pub order: [usize; 64],
    pub fused: [u64; 64],
}

impl Map {
    // The same, lent with the extents of its layout.
    pub fn lent<'a>(&'a self, extents: &'a [u64]) -> LentMap<'a>
        requires { Usable extents.now self.now }
        ensures { (result.extents.now ≡ extents.now) × (result.order.now ≡ self.now.order) × (result.fused.now ≡ self.now.fused) }
    {
        LentMap {
            extents,
            order: &self.order,
            fused: &self.fused,
        }
    }
}

// The map's arrays, written into arrays of zeros. The weights that the order goes by are made where the fused extents come to stand.
pub fn map_into(layout: Layout, purpose: Purpose, order: &mut [usize; 64], fused: &mut [u64; 64])
    requires { (order.old ≡ replicate 64 0) × (fused.old ≡ replicate 64 0) }
    ensures { Fused layout.entry.extents.now layout.entry.operands layout.entry.strides.now purpose order.new fused.new }
{
    let rank = layout.extents.len();
    order::fusing_order_into(layout, purpose, &mut *fused, &mut *order);
    fused_into(layout, &order[..rank], &mut *fused);
}

// The map of a layout that is not refused.
pub fn index_map(layout: Layout, purpose: Purpose) -> Map
    requires { total layout.extents.now < 2 ^ 64 }
    ensures mapped { Mapped layout.entry.extents.now layout.entry.operands layout.entry.strides.now purpose result }
    ensures usable { Usable layout.entry.extents.now result }
{
    let mut order = [0usize; 64];
    let mut fused = [0u64; 64];
    map_into(layout, purpose, &mut order, &mut fused);
    let rank = plan_rank(&fused[..layout.extents.len()]);
    Map { rank, order, fused }
}

// ---- through the map

// The original index of a plan index, with its count: row 11 is judged on the plan's extents.
fn original_by_into(
    map: LentMap,
    counters: &[u64],
    count: &mut [usize; 1],
    index: &mut [u64; 64],
) -> Result<(), Refusal>
    ensures { Leaves (unraveled_by map.entry.extents.now map.entry.order.now map.entry.fused.now counters.now)
        count.old index.old count.new index.new result }
{
    if !plan_within(map.plan_fused(), counters) {
        return Err(Refusal::Index);
    }
    *count = [map.extents.len()];
    map.unravel_index(counters, index);
    Ok(())
}

// The plan index of an original index, with its count: row 11 is judged on the layout's extents.
fn plan_by_into(
    map: LentMap,
    original: &[u64],
    count: &mut [usize; 1],
    index: &mut [u64; 64],
) -> Result<(), Refusal>
    ensures { Leaves (raveled_by map.entry.extents.now map.entry.order.now map.entry.fused.now original.now)
        count.old index.old count.new index.new result }
{
    if !within(map.extents, original) {
        return Err(Refusal::Index);
    }
    let rank = plan_rank(map.plan_fused());
    *count = [rank];
    map.ravel_index(rank, original, index);
    Ok(())
}

// The original index of a plan index, by the map of the layout with these extents.
pub fn original_into(
    extents: &[u64],
    map: Map,
    counters: &[u64],
    count: &mut [usize; 1],
    index: &mut [u64; 64],
) -> Result<(), Refusal>
    requires { Usable extents.now map }
    ensures { TellsOriginal extents.now map counters.now
        count.old index.old count.new index.new result }
{
    original_by_into(map.lent(extents), counters, count, index)
}

// The plan index of an original index, by the map.
pub fn in_plan_into(
    extents: &[u64],
    map: Map,
    original: &[u64],
    count: &mut [usize; 1],
    index: &mut [u64; 64],
) -> Result<(), Refusal>
    requires { Usable extents.now map }
    ensures { TellsPlan extents.now map original.now
        count.old index.old count.new index.new result }
{
    plan_by_into(map.lent(extents), original, count, index)
}

// ---- the entries

// Kept: a `LentMap` on the two arrays in each. A `Map`, as `index_map` hands it out, has the plan's rank counted, for which finding an original
// index has no use.

// The original index of a plan index, for whoever has checked the layout: row 11 alone is judged.
pub fn original_of_into(
    layout: Layout,
    purpose: Purpose,
    counters: &[u64],
    count: &mut [usize; 1],
    index: &mut [u64; 64],
) -> Result<(), Refusal>
    requires { total layout.extents.now < 2 ^ 64 }
    ensures { Leaves (found_original layout.entry.extents.now layout.entry.operands layout.entry.strides.now purpose counters.now)
        count.old index.old count.new index.new result }
{
    let mut order = [0usize; 64];
    let mut fused = [0u64; 64];
    map_into(layout, purpose, &mut order, &mut fused);
    let map = LentMap {
        extents: layout.extents,
        order: &order,
        fused: &fused,
    };
    original_by_into(map, counters, count, index)
}

// The original index of a plan index in lent memory: rows 1 to 6, then 11.
pub fn original_index_into<'a>(
    extents: &'a [u64],
    sizes: &'a [u64],
    strides: &'a [i64],
    purpose: Purpose,
    counters: &'a [u64],
    count: &mut [usize; 1],
    index: &mut [u64; 64],
) -> Result<(), Refusal>
    ensures { Leaves (told_original extents.now sizes.now strides.now purpose counters.now)
        count.old index.old count.new index.new result }
{
    let layout = check_layout(extents, sizes, strides, purpose)?;
    original_of_into(layout, purpose, counters, count, index)
}

// The plan index of an original index in lent memory: rows 1 to 6, then 11.
pub fn plan_index_into<'a>(
    extents: &'a [u64],
    sizes: &'a [u64],
    strides: &'a [i64],
    purpose: Purpose,
    original: &'a [u64],
    count: &mut [usize; 1],
    index: &mut [u64; 64],
) -> Result<(), Refusal>
    ensures { Leaves (told_plan extents.now sizes.now strides.now purpose original.now)
        count.old index.old count.new index.new result }
{
    let layout = check_layout(extents, sizes, strides, purpose)?;
    let mut order = [0usize; 64];
    let mut fused = [0u64; 64];
    map_into(layout, purpose, &mut order, &mut fused);
    let map = LentMap {
        extents: layout.extents,
        order: &order,
        fused: &fused,
    };
    plan_by_into(map, original, count, index)
}

// The original index of a plan index: rows 1 to 6, then 11.
pub fn original_index<'a>(
    extents: &'a [u64],
    sizes: &'a [u64],
    strides: &'a [i64],
    purpose: Purpose,
    counters: &'a [u64],
) -> Result<Told, Refusal>
    ensures { result ≡ told_original extents.now sizes.now strides.now purpose counters.now }
{
    let mut count = [0usize; 1];
    let mut index = [0u64; 64];
    original_index_into(
        extents, sizes, strides, purpose, counters, &mut count, &mut index,
    )?;
    Ok(Told {
        count: count[0],
        index,
    })
}

// The plan index of an original index: rows 1 to 6, then 11.
pub fn plan_index<'a>(
    extents: &'a [u64],
    sizes: &'a [u64],
    strides: &'a [i64],
    purpose: Purpose,
    original: &'a [u64],
) -> Result<Told, Refusal>
    ensures { result ≡ told_plan extents.now sizes.now strides.now purpose original.now }
{
    let mut count = [0usize; 1];
    let mut index = [0u64; 64];
    plan_index_into(
        extents, sizes, strides, purpose, original, &mut count, &mut index,
    )?;
    Ok(Told {
        count: count[0],
        index,
    })
}
