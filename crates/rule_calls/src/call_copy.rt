// Copy: the rule of a place has its branch, so no node is made.
ghost use Rattle.promises.specs.Deed.{Meets};
ghost use Rattle.promises.specs.TableDeeds as D;
ghost use Rattle.promises.specs.RuleDeeds.{ruled};

use crate::at_the_door::door;
use rule_collect::finish;
use rule_words::root_word;
use settings::Refusal;

// The rule of the place becomes that of another.
pub fn copy(t: &mut [u32], place: usize, from: usize) -> Result<(), Refusal>
    ensures { Meets (D.copy ruled place from) t.old t.new result }
{
    door(t, &[place, from])?;
    let b = root_word(t, from);
    finish(t, place, b);
    Ok(())
}
