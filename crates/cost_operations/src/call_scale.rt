// Scale: a cost times an integer.
ghost use Rattle.promises.specs.Deed.{Meets};
ghost use Rattle.promises.specs.CostDeeds as D;

use crate::joining::put_joint;
use cost_amounts::{amount_ok, word_of};
use cost_calls::door;
use cost_engine::Operator;
use cost_nodes::arm_of;
use settings::Refusal;

// The cost of the place becomes that of another times a factor.
pub fn scale(
    t: &mut [u32],
    scratch: &mut [u32],
    place: usize,
    a: usize,
    factor: i64,
) -> Result<(), Refusal>
    ensures { Meets (D.scale place a factor) t.old t.new result }
{
    door(t, &[place, a])?;
    if !amount_ok(factor) {
        return Err(Refusal::BadArgument);
    }
    let x = arm_of(t, a);
    put_joint(t, scratch, place, Operator::Scale(word_of(factor)), x, x)
}
