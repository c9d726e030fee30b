// Constant: a rule that gives every setting one number needs no node.
ghost use Rattle.theory.specs.Rules.{says};
ghost use Rattle.promises.specs.Deed.{Meets};
ghost use Rattle.promises.specs.TableDeeds as D;
ghost use Rattle.promises.specs.RuleDeeds.{ruled};

use crate::at_the_door::door;
use rule_collect::finish;
use rule_words::NUMBERS;
use settings::Refusal;

// The rule of the place becomes the constant number.
pub fn constant(t: &mut [u32], place: usize, number: u32) -> Result<(), Refusal>
    ensures { Meets (D.constant ruled place (says number)) t.old t.new result }
{
    door(t, &[place])?;
    if NUMBERS <= number {
        return Err(Refusal::BadArgument);
    }
    finish(t, place, number);
    Ok(())
}
