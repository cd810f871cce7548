// A plan whose arrays are lent. Its numbers are let through once, by rows 1 and 2, when it is lent; whoever holds one need not ask again.
ghost use Rattle.std.specs.Prelude.{◌≡◌, ◌<◌, length};
ghost use Rattle.strided.specs.Memory.{plan_of};
ghost use Rattle.strided.specs.Begin.{plan_extents, plan_row};
ghost use Rattle.strided.specs.declared.Plan.{Plan};
ghost use Rattle.strided.specs.Refusals.{row6};
ghost use Rattle.layout.specs.Lent.{lent, Whole};

use super::rows::{operands_wrong, rank_over, reach_over};
use super::slices::Rows;
use std::marker::Model;
use strided::{Plan, Refusal};

// A contract sees it as the plan. It is lent on by reference, so that neither the plan nor its arrays are copied.
#[derive(Drop)]
pub struct LentPlan<'a> {
    pub rank: usize,
    pub operands: usize,
    pub extents: &'a [u64; 64],
    pub blocks: &'a [u64; 64],
    pub strides: &'a [i64; 512],
}

impl<'a> Model for LentPlan<'a> {
    ghost Value = { Plan };

    ghost view = { λ l. plan_of l.rank l.operands l.extents.now l.blocks.now l.strides.now };

    ghost invariant = { λ l. Whole (plan_of l.rank l.operands l.extents.now l.blocks.now l.strides.now) };
}

impl<'a> LentPlan<'a> {
    // "Rank is 0 to 64", "1 to 8 operands": rows 1 and 2.
    // Kept: the counts beside the arrays. C lends them so, and here they become one.
    pub fn of(
        rank: usize,
        operands: usize,
        extents: &'a [u64; 64],
        blocks: &'a [u64; 64],
        strides: &'a [i64; 512],
    ) -> Result<LentPlan<'a>, Refusal>
        ensures { result ≡ lent (plan_of rank operands extents.now blocks.now strides.now) }
    {
        if rank_over(rank) {
            return Err(Refusal::Rank);
        }
        if operands_wrong(operands) {
            return Err(Refusal::Operands);
        }
        Ok(LentPlan {
            rank,
            operands,
            extents,
            blocks,
            strides,
        })
    }

    // Its extents, one for each axis.
    pub fn axes(&self) -> &'a [u64]
        ensures value { result.now ≡ plan_extents self.now }
        ensures long { length result.now ≡ self.now.rank }
    {
        let extents = self.extents;
        &extents[..self.rank]
    }

    // Operand k's strides, one for each axis.
    pub fn row(&self, k: usize) -> &'a [i64]
        requires { k < self.now.operands }
        ensures value { result.now ≡ plan_row self.now k }
        ensures long { length result.now ≡ self.now.rank }
    {
        let strides = self.strides;
        let from = k * 64;
        &strides[from..from + self.rank]
    }

    // Row 6: whether some operand's reach is above 2^63 - 1.
    pub fn reach_over(&self) -> bool
        ensures { result ≡ (row6 (plan_extents self.now) self.now.operands (plan_row self.now)).applies }
    {
        let strides = self.strides;
        let rows = Rows {
            strides,
            pitch: 64,
            operands: self.operands,
        };
        reach_over(self.axes(), rows)
    }
}

// A plan as it is, lent by the same rows.
impl<'a> TryFrom<&'a Plan> for LentPlan<'a> {
    type Error = Refusal;

    ghost try_from_gives = { λ p r. r ≡ lent p.now };

    fn try_from(plan: &'a Plan) -> Result<LentPlan<'a>, Refusal> {
        LentPlan::of(
            plan.rank,
            plan.operands,
            &plan.extents,
            &plan.blocks,
            &plan.strides,
        )
    }
}
