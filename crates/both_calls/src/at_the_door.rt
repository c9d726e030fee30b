// The door of every call that is lent both tables: both are sound, there are the places that the call touches, and the feature lists are one.
ghost use Rattle.both_calls.specs.Door.{EntersBoth};

use cost_sound::sound;
use rule_sound::sound as rules_sound;
use settings::Refusal;
use table_calls::{are_places, same_features};

// DAMAGED, BAD PLACE, OTHER FEATURES, or taken: the first places are those of the rule table, the second those of the cost table.
pub fn door(rules: &[u32], costs: &[u32], first: &[usize], second: &[usize]) -> Result<(), Refusal>
    ensures { EntersBoth first.now second.now rules.now costs.now result }
{
    if !rules_sound(rules) || !sound(costs) {
        return Err(Refusal::Damaged);
    }
    if !are_places(32, first) || !are_places(16, second) {
        return Err(Refusal::BadPlace);
    }
    if !same_features(rules, costs) {
        return Err(Refusal::OtherFeatures);
    }
    Ok(())
}
