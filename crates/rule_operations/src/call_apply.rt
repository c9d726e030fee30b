// Apply: an operator on the numbers of two rules.
ghost use Rattle.promises.specs.Deed.{Meets};
ghost use Rattle.promises.specs.RuleDeeds as D;

use crate::joining::put_joint;
use rule_calls::door;
use rule_operators::Operator;
use rule_words::root_word;
use settings::Refusal;

// The rule of the place becomes the operator's number of those of two places.
pub fn apply(
    t: &mut [u32],
    scratch: &mut [u32],
    place: usize,
    operator: u32,
    a: usize,
    b: usize,
) -> Result<(), Refusal>
    ensures { Meets (D.apply place operator a b) t.old t.new result }
{
    door(t, &[place, a, b])?;
    let Some(operator) = Operator::of_apply(operator) else {
        return Err(Refusal::BadArgument);
    };
    let ops = [root_word(t, a), root_word(t, b)];
    put_joint(t, scratch, place, operator, &ops)
}
