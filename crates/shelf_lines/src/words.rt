// The words of a line, and lists of numbers.
ghost use Rattle.std.specs.Prelude.{IfOk, length, map, ◌==◌, ◌≡◌, ◌<◌, ◌≤◌};
ghost use Rattle.std.specs.List.{slice_split};

use crate::faults::Fault;
use crate::numbers::{Parameter, value};

// The parts of a text between the marks, put at the start of the room, which has to hold them all.
pub fn parts<'a, 'b>(
    text: &'a str,
    mark: char,
    room: &'b mut [&'a str],
) -> Result<&'b [&'a str], Fault>
    ensures within_room { IfOk result (λ l. length l.now ≤ length room.old) }
    ensures between_marks { mark < 128 → IfOk result (λ l. map (λ part. part.now) l.now ≡ slice_split (λ b. b == mark) text.now) }
{
    let mut count = 0;
    for part in text.split(mark) {
        if count == room.len() {
            return Err(Fault::Unknown);
        }
        room[count] = part;
        count += 1;
    }
    Ok(&mut room[..count])
}

// What parameters are passed for the numbers that the texts are, put at the start of the room, which has to hold them all.
pub fn values<'a, T: Parameter>(texts: &[&str], room: &'a mut [T]) -> Result<&'a [T], Fault>
    ensures one_each { IfOk result (λ l. length l.now ≡ length texts.now) }
    ensures within_room { IfOk result (λ l. length l.now ≤ length room.old) }
{
    let values = room.get_mut(..texts.len()).ok_or(Fault::Unknown)?;
    for (place, text) in values.iter_mut().zip(texts) {
        *place = value(text)?;
    }
    Ok(values)
}
