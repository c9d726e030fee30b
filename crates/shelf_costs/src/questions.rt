// The commands with more of an answer than how the call ended, and the opening.
use settings::outcome_number;
use shelf_lines::{Fault, Table, say, say_number, value, values};

// `copen CAPACITY S0 S1 ..`
pub fn open(
    rt: &impl Print,
    capacity: &str,
    sizes: &[&str],
    table: &mut Table,
) -> Result<(), Fault> {
    let mut room = [0u8; 64];
    let sizes = values(sizes, &mut room)?;
    let opened = cost_calls::open(table.buffer.lent(), sizes, value(capacity)?);
    if opened.is_ok() {
        table.features = sizes.len();
    }
    say(rt, opened)
}

// `clook P V0 V1 ..`
pub fn look(rt: &impl Print, place: &str, setting: &[&str], table: &[u32]) -> Result<(), Fault> {
    let mut room = [0u8; 64];
    let setting = values(setting, &mut room)?;
    let looked = cost_calls::look_up(table, value(place)?, setting);
    let ending = outcome_number(&looked);
    let looked = looked.unwrap_or_default();
    print!(rt; "{ending} {} {}", looked.cost, looked.asked)?;
    Ok(())
}

// `csame P Q`
pub fn same(rt: &impl Print, a: &str, b: &str, table: &[u32]) -> Result<(), Fault> {
    let same = cost_calls::same(table, value(a)?, value(b)?);
    say_number(rt, same.map(|same| u8::from(same)))
}

// `ctally`
pub fn tally(rt: &impl Print, table: &[u32]) -> Result<(), Fault> {
    say_number(rt, cost_calls::tally(table))
}
