// Forget: a feature removed from a rule.
ghost use Rattle.promises.specs.Deed.{Meets};
ghost use Rattle.promises.specs.RuleDeeds as D;

use crate::joining::put_joint;
use rule_calls::door;
use rule_operators::Operator;
use rule_words::root_word;
use settings::Refusal;
use table_words::{features_word, size_word};

// The rule of the place becomes another with a feature removed: 0, the one other number over its values, or 65,535 where two differ.
pub fn forget(
    t: &mut [u32],
    scratch: &mut [u32],
    place: usize,
    from: usize,
    feature: usize,
) -> Result<(), Refusal>
    ensures { Meets (D.forget place from feature) t.old t.new result }
{
    door(t, &[place, from])?;
    if features_word(t) as usize <= feature {
        return Err(Refusal::BadArgument);
    }
    let m = size_word(t, feature) as usize;
    let b = root_word(t, from);
    let ops = [b; 9];
    put_joint(t, scratch, place, Operator::Forget(feature), &ops[..m])
}
