// Restrict: a feature held at a value.
ghost use Rattle.std.specs.Prelude.{◌<◌};
ghost use Rattle.theory.specs.Operations.{restricted};
ghost use Rattle.promises.specs.Words.{features, size};
ghost use Rattle.promises.specs.RuleWords.{rule_of};
ghost use Rattle.promises.specs.RuleSound.{RuleSound};
ghost use Rattle.promises.specs.Deed.{Meets};
ghost use Rattle.promises.specs.RuleDeeds as D;
ghost use Rattle.rule_settling.specs.Settling.{Puts};

use rule_calls::door;
use rule_restrict::held;
use rule_settling::settle;
use rule_words::root_word;
use settings::Refusal;
use table_words::{count_word, features_word, size_word};

// The restricted rule becomes the rule of the place.
fn put_restricted(
    t: &mut [u32],
    place: usize,
    from: usize,
    feature: usize,
    value: usize,
) -> Result<(), Refusal>
    requires { (RuleSound t.old) × (place < 32) × (from < 32) × (feature < features t.old) × (value < size t.old feature) }
    ensures { Puts place (restricted feature value (rule_of t.old from)) t.old t.new result }
{
    let used = count_word(t) as usize;
    let b = root_word(t, from);
    let r = held(t, b, feature, value);
    settle(t, place, used, r)
}

// The rule of the place becomes another with the feature held at the value.
pub fn restrict(
    t: &mut [u32],
    place: usize,
    from: usize,
    feature: usize,
    value: usize,
) -> Result<(), Refusal>
    ensures { Meets (D.restrict place from feature value) t.old t.new result }
{
    door(t, &[place, from])?;
    if features_word(t) as usize <= feature || size_word(t, feature) as usize <= value {
        return Err(Refusal::BadArgument);
    }
    put_restricted(t, place, from, feature, value)
}
