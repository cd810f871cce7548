// Row 10, "for a session that no beginning and accepted calls lead to": planning accepts the session's layout, and everything else in it is
// what that layout gives. The table of ranks that the check works out serves the call that goes on.
ghost use Rattle.std.specs.Prelude.{◌≡◌, true, ◌&&◌, [], ◌∷◌, ℕ, ◌*◌, ◌≤◌, ◌<◌, eqb, pos, length, get_or, take, drop, replicate, MatchOption};
ghost use Rattle.strided.specs.Base.{padded};
ghost use Rattle.strided.specs.Layout.{lead as lead_of};
ghost use Rattle.strided.specs.Memory.{purpose_of};
ghost use Rattle.strided.specs.Fuse.{eq_z};
ghost use Rattle.strided.specs.Order.{pick};
ghost use Rattle.strided.specs.Step.{blank, blank_z};
ghost use Rattle.strided.specs.Refusals.{refused_by, answered};
ghost use Rattle.laws.specs.Fuse.Arrays.{pick_rows};
ghost use Rattle.session.specs.Session.{kind_of, same_nats, same_ints, Right, row21, new_rows};
ghost use Rattle.session.specs.Same.{Decides};
ghost use Rattle.session.specs.Made.{RankRow, ranks_in, costs_in, blocks_in, numbers_of, LaidRight, Tables, WeightsRight, AxesRight, BlocksRight, KeepsRight};

use super::LentSession;
use super::compare::{alike, same};
use super::kept::{cut_kept_into, stays_kept_into, weights_kept_into};
use auxiliary::rank_table_into;
use fuse::cost_at;
use layout::{
    Rows, all_zero, check_planning, operands_wrong, rank_over, reach_over, strides_wrong,
};
use strided::{MAX_OPERANDS, Refusal};

// Whether two numbers are those of a purpose as it is handed out: 0, 1 or 2, and 0 where there is no chosen operand.
fn purpose_told(purpose: u64, chosen: u64) -> bool
    ensures { result ≡ (eqb (kind_of (purpose_of purpose chosen)) purpose && eqb (lead_of (purpose_of purpose chosen)) chosen) }
{
    if purpose == 0 {
        chosen == 0
    } else {
        purpose <= 2
    }
}

// Whether the places behind the counts are 0.
fn tidy(session: &LentSession) -> bool
    requires { (session.now.rank ≤ 64) × (session.now.operands ≤ 8) }
    ensures { let s = session.now in
        result ≡ (blank (drop s.rank s.extents) && (blank (drop s.operands s.sizes) && blank_z (drop (s.rank * s.operands) s.strides))) }
{
    let numbers = session.numbers;
    let extents = session.extents;
    let sizes = session.sizes;
    let strides = session.strides;
    let count = numbers.rank * numbers.operands;
    let e = all_zero(&extents[numbers.rank..]);
    let z = all_zero(&sizes[numbers.operands..]);
    let s = all_zero(&strides[count..]);
    e & (z & s)
}

// A session whose layout is right: planning accepts it, and it is laid out as a session has it.
#[derive(Clone, Copy)]
struct RightLayout<'a, 'b> {
    session: &'a LentSession<'b>,
    ghost right: { LaidRight session.now },
}

// Such a session, and the table of its ranks.
#[derive(Clone, Copy)]
struct Ranked<'a, 'b> {
    right: RightLayout<'a, 'b>,
    table: &'a [[u8; 64]; 8],
    ghost ranks: { Tables right.session.now table.now },
}

// A session with its layout, where that is right.
fn layout_right<'a, 'b>(session: &'a LentSession<'b>) -> Option<RightLayout<'a, 'b>>
    ensures { MatchOption result (LaidRight session.now → ⊥) (λ r. r.session.now ≡ session.now) }
{
    let numbers = session.numbers;
    let operands = numbers.operands;
    if rank_over(numbers.rank) || operands_wrong(operands) {
        return None;
    }
    let told = purpose_told(numbers.purpose, numbers.chosen);
    let neat = tidy(session);
    let laid = session.laid();
    let layout = laid.layout();
    let sizes = session.sizes;
    let answer = check_planning(
        layout.extents,
        &sizes[..operands],
        layout.strides,
        laid.purpose(),
        numbers.machine,
    );
    let plain = answer.is_ok();
    let right = told & (neat & plain);
    if right {
        return Some(RightLayout { session });
    }
    None
}

// The table of the ranks of a session's layout, written into one of zeros.
fn table_into(right: RightLayout, table: &mut [[u8; 64]; 8])
    requires { table.old ≡ replicate 8 (replicate 64 0) }
    ensures { Tables right.entry.session.now table.new }
{
    let laid = right.session.laid();
    rank_table_into(laid.layout(), table);
}

// Whether a row of ranks is that of the table, which is 0 behind the rank.
fn row_right<'a>(row: &'a [u8; 64], rank: usize, ranks: &'a [u64]) -> bool
    requires row { RankRow row.now × (length ranks.now ≡ 64) }
    requires rank { (rank ≤ 64) × (blank (drop rank row.now) ≡ true) }
    ensures { result ≡ same_nats ranks.now row.now }
{
    let told = alike(rank, |i| ranks[i] ^ row[i] as u64);
    let rest = all_zero(&ranks[rank..]);
    told & rest
}

// Whether the ranks are those of the table.
// Kept: a loop over rows of its own, here and in `strides_right`. What the two do with a row differs in each argument, and a closure over the row's
// number would have to say the same of it as these loops' invariants.
fn ranks_right(ranked: Ranked) -> bool
    ensures { let s = ranked.entry.right.session.now in Decides result (s.ranks ≡ ranks_in ranked.entry.table.now s.operands) }
{
    let session = ranked.right.session;
    let table = ranked.table;
    let rank = session.numbers.rank;
    let operands = session.numbers.operands;
    let ranks = session.ranks;
    let mut alike = true;
    for k in 0..operands {
        let start = k * 64;
        let end = start + 64;
        alike &= row_right(&table[k], rank, &ranks[start..end]);
    }
    let behind = operands * 64;
    let rest = all_zero(&ranks[behind..]);
    alike & rest
}

// Whether the weights are what the layout gives.
fn weights_right(ranked: Ranked) -> bool
    ensures { Decides result (WeightsRight ranked.entry.right.session.now) }
{
    let session = ranked.right.session;
    let weights = session.weights;
    let laid = session.laid();
    let mut w = [0u64; 64];
    weights_kept_into(&laid, ranked.table, &mut w);
    same(&w, weights)
}

// The bits in which two strides differ.
fn unlike(a: i64, b: i64) -> u64
    ensures { eqb result 0 ≡ eq_z a b }
{
    (a ^ b).cast_unsigned()
}

// Whether a row of a plan's strides has an operand's strides of these axes, and 0 behind them.
fn row_picked<'a>(strides: &'a [i64], axes: &'a [u8], row: &'a [i64]) -> bool
    requires few { (length axes.now ≤ 64) × (length row.now ≡ 64) }
    requires by_index { (j : ℕ) → j < length axes.now → get_or axes.now j 0 < length strides.now }
    ensures { result ≡ same_ints (padded 64 (pos 0) (pick (pos 0) strides.now axes.now)) row.now }
{
    let picked = alike(axes.len(), |i| unlike(strides[axes[i] as usize], row[i]));
    let rest = all_zero(&row[axes.len()..]);
    picked & rest
}

// Whether a plan's strides are those of these axes.
fn strides_right(rows: Rows, axes: &[u8], plan_strides: &[i64; 512]) -> bool
    requires few { (rows.operands ≤ 8) × (length axes.now ≤ 64) }
    requires by_index { (j : ℕ) → j < length axes.now → get_or axes.now j 0 < rows.pitch }
    ensures { result ≡ same_ints (padded 512 (pos 0)
        (pick_rows rows.entry.strides.now rows.entry.pitch axes.now rows.entry.operands)) plan_strides.now }
{
    let mut alike = true;
    for k in 0..rows.operands {
        let start = k * 64;
        let end = start + 64;
        alike &= row_picked(
            &rows.strides[k * rows.pitch..],
            axes,
            &plan_strides[start..end],
        );
    }
    let behind = rows.operands * 64;
    let rest = all_zero(&plan_strides[behind..]);
    alike & rest
}

// Whether the plan's axes are what the layout gives, where the weights are.
fn axes_right(right: RightLayout) -> bool
    requires { WeightsRight right.session.now }
    ensures { Decides result (AxesRight right.entry.session.now) }
{
    let session = right.session;
    let numbers = session.numbers;
    let laid = session.laid();
    let layout = laid.layout();
    let mut e = [0u64; 64];
    let mut axes = [0u8; 64];
    let found = stays_kept_into(&laid, session.weights, &mut e, &mut axes);
    let counts = (numbers.plan_operands == numbers.operands) & (found == numbers.plan_rank);
    let plan_extents = session.plan_extents;
    let loops = same(&e, plan_extents);
    let moves = strides_right(layout.rows(), &axes[..found], session.plan_strides);
    counts & (loops & moves)
}

// Whether the costs are those of the plan's axes, and 0 behind them, where the plan's axes are what the layout gives.
fn costs_right(right: RightLayout) -> bool
    requires { AxesRight right.session.now }
    ensures { let s = right.entry.session.now in Decides result (s.costs ≡ costs_in (numbers_of s) s.plan.strides) }
{
    let session = right.session;
    let numbers = session.numbers;
    let costs = session.costs;
    let plan_strides = session.plan_strides;
    let rows = Rows {
        strides: plan_strides,
        pitch: 64,
        operands: numbers.operands,
    };
    let told = alike(numbers.plan_rank, |i| costs[i] ^ cost_at(rows, i));
    let rest = all_zero(&costs[numbers.plan_rank..]);
    told & rest
}

// Whether the blocks are what the layout gives, where the plan's axes are: at most 1,024 cells are not cut.
fn cut_right(right: RightLayout) -> bool
    requires { AxesRight right.session.now }
    ensures { let s = right.entry.session.now in
        Decides result (s.plan.blocks ≡ blocks_in (numbers_of s) s.extents s.sizes s.plan.extents s.plan.strides) }
{
    let session = right.session;
    let laid = session.laid();
    let extents = session.plan_extents;
    let blocks = session.blocks;
    if laid.small() {
        return same(extents, blocks);
    }
    let mut b = [0u64; 64];
    cut_kept_into(&laid, extents, session.plan_strides, &mut b);
    same(&b, blocks)
}

// Whether costs and blocks are what the layout gives, where the plan's axes are.
fn blocks_right(right: RightLayout) -> bool
    requires { AxesRight right.session.now }
    ensures { Decides result (BlocksRight right.entry.session.now) }
{
    let costs = costs_right(right);
    let cut = cut_right(right);
    costs & cut
}

// Whether everything that is kept beside the ranks is what the layout gives.
fn kept_right(ranked: Ranked) -> bool
    ensures { Decides result (KeepsRight ranked.entry.right.session.now) }
{
    let right = ranked.right;
    weights_right(ranked) && (axes_right(right) && blocks_right(right))
}

// Whether a session is one that beginnings and accepted calls lead to. If it is, the table of its ranks is left in `table`, which is lent as
// zeros.
// Kept: an `Option` of the table misses the speed of a join, which request 8 measures beside two plannings: its 512 bytes are copied. At 10 x 10
// that is 5,718 instructions for 5,466, both of the same code in plain Rust.
pub fn holds(session: &LentSession, table: &mut [[u8; 64]; 8]) -> bool
    requires { table.old ≡ replicate 8 (replicate 64 0) }
    ensures told { Decides result (Right session.now) }
    ensures table { result ≡ true → Tables session.now table.new }
{
    let Some(right) = layout_right(session) else {
        return false;
    };
    table_into(right, &mut *table);
    let ranked = Ranked { right, table };
    ranks_right(ranked) && kept_right(ranked)
}

// Rows 20, 3 and 6 of an operand that is to join the layout of a session.
pub fn check_joining(session: &LentSession, joining: &[i64]) -> Result<(), Refusal>
    requires { session.now.rank ≤ 64 }
    ensures { let s = session.now in
        result ≡ answered (refused_by (new_rows s.rank s.operands (take s.rank s.extents) joining.now)) }
{
    let rank = session.numbers.rank;
    let operands = session.numbers.operands;
    if MAX_OPERANDS <= operands {
        return Err(Refusal::Ninth);
    }
    if strides_wrong(rank, 1, joining) {
        return Err(Refusal::StrideCount);
    }
    let rows = Rows {
        strides: joining,
        pitch: rank,
        operands: 1,
    };
    let extents = session.extents;
    if reach_over(&extents[..rank], rows) {
        return Err(Refusal::Reach);
    }
    Ok(())
}

// Row 21 of an operand that is to leave.
pub fn check_leaving(operands: usize, operand: u64) -> Result<(), Refusal>
    ensures { result ≡ answered (refused_by (row21 operands operand ∷ [])) }
{
    if operands as u64 <= operand || operands == 1 {
        return Err(Refusal::Leaving);
    }
    Ok(())
}
