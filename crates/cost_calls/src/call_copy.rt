// Copy: the cost of a place has its branch, so no node is made.
ghost use Rattle.promises.specs.Deed.{Meets};
ghost use Rattle.promises.specs.TableDeeds as D;
ghost use Rattle.promises.specs.CostDeeds.{costed};

use crate::at_the_door::door;
use cost_collect::finish;
use cost_words::{base_word, root_word};
use settings::Refusal;

// The cost of the place becomes that of another.
pub fn copy(t: &mut [u32], place: usize, from: usize) -> Result<(), Refusal>
    ensures { Meets (D.copy costed place from) t.old t.new result }
{
    door(t, &[place, from])?;
    let x = root_word(t, from);
    let a = base_word(t, from);
    finish(t, place, x, a);
    Ok(())
}
