// The planner's inner parts as C functions, for differential runs and benchmarks. This is not the public interface.
// Each takes any layout, and answers 0 and writes its part into the lent array, or answers a refusal's number and leaves the array as it
// was. The purpose is two numbers: 0 for pointwise with no chosen operand, 1 for pointwise into the chosen one, 2 for a fold by it.
// Planning by value is in plans.rt, the steps of a walk are in steps.rt.
// Kept: what C lends one by one, and a machine's four numbers, as in `gougelily`.
#![tactic(auto)]

ghost use Rattle.std.specs.Prelude.{◌≡◌, map, [], ◌∷◌, ◌<◌, length, replicate};
ghost use Rattle.strided.specs.Base.{padded};
ghost use Rattle.strided.specs.Layout.{lead, extents as extents_of};
ghost use Rattle.strided.specs.Refusals.{layout_refused};
ghost use Rattle.strided.specs.Ranks.{rank_table};
ghost use Rattle.strided.specs.Weights.{weights};
ghost use Rattle.strided.specs.Order.{loop_order};
ghost use Rattle.strided.specs.Fuse.{plan_axes};
ghost use Rattle.strided.specs.Plan.{stride_table};
ghost use Rattle.strided.specs.Memory.{purpose_of};
ghost use Rattle.finding.specs.Mapped.{fused_extents};
ghost use Rattle.parts.specs.Answers.{counts_refused, told, Part, plan_costs};

use auxiliary::rank_table_into;
use costs::costs_of;
use finding::map_into;
use importance::compute_importance_into;
use kernel::axes_into;
use layout::{check_counts, check_layout, lead, purpose_of};
use order::compute_order_into;

// What an entry hands out. On a refusal the function around it answers the refusal's number, as `?` would have it answer the refusal.
macro_rules! served {
    ($answer:expr) => {
        match $answer {
            Ok(value) => value,
            Err(refusal) => return layout::number(refusal),
        }
    };
}

mod costs;
pub mod plans;
pub mod steps;

// Rows 1 to 6.
#[unsafe(no_mangle)]
pub extern "C" fn parts_check<'a>(
    extents: &'a [u64],
    sizes: &'a [u64],
    strides: &'a [i64],
    kind: u64,
    chosen: u64,
) -> u64
    ensures { result ≡ told (layout_refused extents.now sizes.now strides.now (purpose_of kind chosen)) }
{
    served!(check_layout(extents, sizes, strides, purpose_of(kind, chosen)));
    0
}

// The ranks: one row per operand, one rank per axis.
#[unsafe(no_mangle)]
pub extern "C" fn parts_ranks<'a>(
    extents: &'a [u64],
    sizes: &'a [u64],
    strides: &'a [i64],
    kind: u64,
    chosen: u64,
    ranks: &mut [[u8; 64]; 8],
) -> u64
    ensures { Part (counts_refused extents.now sizes.now strides.now (purpose_of kind chosen))
        (padded 8 (replicate 64 0) (map (padded 64 0) (rank_table strides.now (length extents.now) (length sizes.now))))
        ranks.old ranks.new result }
{
    let layout = served!(check_counts(extents, sizes, strides, purpose_of(kind, chosen)));
    *ranks = [[0u8; 64]; 8];
    rank_table_into(layout, ranks);
    0
}

// The weights of the axes.
#[unsafe(no_mangle)]
pub extern "C" fn parts_weights<'a>(
    extents: &'a [u64],
    sizes: &'a [u64],
    strides: &'a [i64],
    kind: u64,
    chosen: u64,
    importance: &mut [u64; 64],
) -> u64
    ensures { Part (counts_refused extents.now sizes.now strides.now (purpose_of kind chosen))
        (padded 64 0 (weights extents.now (length sizes.now) strides.now (lead (purpose_of kind chosen))))
        importance.old importance.new result }
{
    let purpose = purpose_of(kind, chosen);
    let layout = served!(check_counts(extents, sizes, strides, purpose));
    *importance = [0u64; 64];
    compute_importance_into(layout, lead(purpose), importance);
    0
}

// The loop order.
#[unsafe(no_mangle)]
pub extern "C" fn parts_order<'a>(
    extents: &'a [u64],
    sizes: &'a [u64],
    strides: &'a [i64],
    kind: u64,
    chosen: u64,
    order: &mut [usize; 64],
) -> u64
    ensures { Part (counts_refused extents.now sizes.now strides.now (purpose_of kind chosen))
        (padded 64 0 (loop_order extents.now (length sizes.now) strides.now (purpose_of kind chosen)))
        order.old order.new result }
{
    let purpose = purpose_of(kind, chosen);
    let layout = served!(check_counts(extents, sizes, strides, purpose));
    *order = [0usize; 64];
    let mut weights = [0u64; 64];
    compute_order_into(layout, purpose, &mut weights, order);
    0
}

// ---- fused axes

// The extents after fusing, one for each axis in the order of fusing: one that has joined the axis before it is 1.
#[unsafe(no_mangle)]
pub extern "C" fn parts_fused<'a>(
    extents: &'a [u64],
    sizes: &'a [u64],
    strides: &'a [i64],
    kind: u64,
    chosen: u64,
    fused: &mut [u64; 64],
) -> u64
    ensures { Part (counts_refused extents.now sizes.now strides.now (purpose_of kind chosen))
        (padded 64 0 (fused_extents extents.now (length sizes.now) strides.now (purpose_of kind chosen)))
        fused.old fused.new result }
{
    let purpose = purpose_of(kind, chosen);
    let layout = served!(check_counts(extents, sizes, strides, purpose));
    *fused = [0u64; 64];
    let mut order = [0usize; 64];
    map_into(layout, purpose, &mut order, fused);
    0
}

// The plan's axes: their number, extents and strides, operand k's stride on axis i at k * 64 + i.
#[unsafe(no_mangle)]
pub extern "C" fn parts_axes<'a>(
    extents: &'a [u64],
    sizes: &'a [u64],
    strides: &'a [i64],
    kind: u64,
    chosen: u64,
    count: &mut [usize; 1],
    kept: &mut [u64; 64],
    table: &mut [i64; 512],
) -> u64
    ensures rank { Part (counts_refused extents.now sizes.now strides.now (purpose_of kind chosen))
        (length (plan_axes extents.now (length sizes.now) strides.now (purpose_of kind chosen)) ∷ [])
        count.old count.new result }
    ensures extents { Part (counts_refused extents.now sizes.now strides.now (purpose_of kind chosen))
        (padded 64 0 (extents_of (plan_axes extents.now (length sizes.now) strides.now (purpose_of kind chosen))))
        kept.old kept.new result }
    ensures strides { Part (counts_refused extents.now sizes.now strides.now (purpose_of kind chosen))
        (stride_table (plan_axes extents.now (length sizes.now) strides.now (purpose_of kind chosen)) (length sizes.now))
        table.old table.new result }
{
    let purpose = purpose_of(kind, chosen);
    let layout = served!(check_counts(extents, sizes, strides, purpose));
    *kept = [0u64; 64];
    *table = [0i64; 512];
    let rank = axes_into(layout, purpose, kept, table);
    *count = [rank];
    0
}

// The costs of the plan's axes, 0 where an axis has none.
#[unsafe(no_mangle)]
pub extern "C" fn parts_costs<'a>(
    extents: &'a [u64],
    sizes: &'a [u64],
    strides: &'a [i64],
    kind: u64,
    chosen: u64,
    costs: &mut [u64; 64],
) -> u64
    ensures { Part (counts_refused extents.now sizes.now strides.now (purpose_of kind chosen))
        (padded 64 0 (plan_costs extents.now (length sizes.now) strides.now (purpose_of kind chosen)))
        costs.old costs.new result }
{
    let purpose = purpose_of(kind, chosen);
    let layout = served!(check_counts(extents, sizes, strides, purpose));
    *costs = costs_of(layout, purpose);
    0
}
