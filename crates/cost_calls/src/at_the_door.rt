// The door of every call on a cost table: the table is sound, and there are the places that the call touches.
ghost use Rattle.promises.specs.CostSound.{CostSound};
ghost use Rattle.table_calls.specs.Door.{Enters};

use cost_sound::sound;
use settings::Refusal;
use table_calls::{admit, are_places};

// DAMAGED, BAD PLACE, or taken.
pub fn door(t: &[u32], places: &[usize]) -> Result<(), Refusal>
    ensures { Enters CostSound 16 places.now t.now result }
{
    admit(sound(t), are_places(16, places))
}
