// The door of every call on a rule table: the table is sound, and there are the places that the call touches.
ghost use Rattle.promises.specs.RuleSound.{RuleSound};
ghost use Rattle.table_calls.specs.Door.{Enters};

use rule_sound::sound;
use settings::Refusal;
use table_calls::{admit, are_places};

// DAMAGED, BAD PLACE, or taken.
pub fn door(t: &[u32], places: &[usize]) -> Result<(), Refusal>
    ensures { Enters RuleSound 32 places.now t.now result }
{
    admit(sound(t), are_places(32, places))
}
