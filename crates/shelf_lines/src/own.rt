// The commands on neither table: scratch, lend, clend, which change what is lent, and the stepper's.
use crate::desk::{Desk, WORDS};
use crate::faults::Fault;
use crate::numbers::{at_most, word};
use crate::saying::Values;
use crate::words::{parts, values};
use settings::{Setting, Stepped, refusal_number};

// `step S0,S1,.. V0 V1 ..`
fn step(rt: &impl Print, sizes: &str, setting: &[&str]) -> Result<(), Fault> {
    let mut parts_room = [""; 64];
    let sizes = parts(sizes, ',', &mut parts_room)?;
    let mut sizes_room = [0u8; 64];
    let sizes = values(sizes, &mut sizes_room)?;
    let mut setting_room = [0u8; 64];
    let from = Setting::of(values(setting, &mut setting_room)?);
    let count = from.count;
    match from.next(sizes) {
        Ok(Stepped::Next(setting)) => print!(rt; "0 0{}", Values { setting, count })?,
        Ok(Stepped::Last(setting)) => print!(rt; "0 1{}", Values { setting, count })?,
        Err(refusal) => print!(rt; "{} 0", refusal_number(refusal))?,
    }
    Ok(())
}

// The command that the words are, where it is one of these.
pub fn own_command(rt: &impl Print, words: &[&str], desk: &mut Desk) -> Result<(), Fault> {
    match words {
        ["scratch", length, fill] => {
            let length = at_most(length, WORDS)?;
            desk.scratch.fill = word(fill)?;
            desk.scratch.buffer.lent = length;
        }
        ["lend", length] => desk.rules.buffer.lent = at_most(length, WORDS)?,
        ["clend", length] => desk.costs.buffer.lent = at_most(length, WORDS)?,
        ["step", sizes, setting @ ..] => return step(rt, sizes, setting),
        _ => return Err(Fault::Unknown),
    }
    print!(rt; "0")?;
    Ok(())
}
