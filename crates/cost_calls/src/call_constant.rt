// Constant: a cost that gives every setting one amount needs no node.
ghost use Rattle.theory.specs.Costs as C;
ghost use Rattle.promises.specs.Deed.{Meets};
ghost use Rattle.promises.specs.TableDeeds as D;
ghost use Rattle.promises.specs.CostDeeds.{costed};

use crate::at_the_door::door;
use cost_amounts::{amount_ok, word_of};
use cost_collect::finish;
use settings::Refusal;

// The cost of the place becomes the constant amount.
pub fn constant(t: &mut [u32], place: usize, amount: i64) -> Result<(), Refusal>
    ensures { Meets (D.constant costed place (C.amount amount)) t.old t.new result }
{
    door(t, &[place])?;
    if !amount_ok(amount) {
        return Err(Refusal::BadArgument);
    }
    finish(t, place, 0, word_of(amount));
    Ok(())
}
