// THE BLOCKS OF A STRETCH, by what goes through them: the plan, how many they are and how long, the offsets of the first one, and how far each
// operand moves from block to block.
ghost use Rattle.walker.specs.Stretch.{RowsFit};

use super::Next;
use layout::LentPlan;

#[derive(Clone, Copy)]
pub struct Blocks<'a, 'b> {
    pub plan: &'a LentPlan<'b>,
    pub next: Next,
    pub first: &'a [i64; 8],
    pub moves: &'a [i64; 8],
    pub ghost fit: { RowsFit next.count plan.now.operands moves.now first.now },
}
