// The door of a call: its tables are sound, and the places that it touches are places of them.
ghost use Rattle.settings.specs.Tells.{Tells};
ghost use Rattle.promises.specs.State.{Places};
ghost use Rattle.table_calls.specs.Door.{Admits};

use settings::Refusal;

// Whether each of the list is one of n places.
pub fn are_places(n: usize, places: &[usize]) -> bool
    ensures { Tells result (Places n places.now) }
{
    places.iter().all(|place| *place < n)
}

// DAMAGED where a table is not sound, BAD PLACE where a place is not there, or taken.
pub fn admit(sound: bool, there: bool) -> Result<(), Refusal>
    ensures { Admits sound there result }
{
    if !sound {
        return Err(Refusal::Damaged);
    }
    if !there {
        return Err(Refusal::BadPlace);
    }
    Ok(())
}
