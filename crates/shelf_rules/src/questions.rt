// The commands with more of an answer than how the call ended, and the opening.
use settings::outcome_number;
use shelf_lines::{Fault, Table, Values, say, say_looked, say_number, value, values};

// `open CAPACITY S0 S1 ..`
pub fn open(
    rt: &impl Print,
    capacity: &str,
    sizes: &[&str],
    table: &mut Table,
) -> Result<(), Fault> {
    let mut room = [0u8; 64];
    let sizes = values(sizes, &mut room)?;
    let opened = rule_calls::open(table.buffer.lent(), sizes, value(capacity)?);
    if opened.is_ok() {
        table.features = sizes.len();
    }
    say(rt, opened)
}

// `literal P FEATURE BITS`
pub fn literal(
    rt: &impl Print,
    place: &str,
    feature: &str,
    bits: &str,
    table: &mut [u32],
) -> Result<(), Fault> {
    let size = rule_operations::literal(table, value(place)?, value(feature)?, value(bits)?);
    say_number(rt, size)
}

// `look P V0 V1 ..`
pub fn look(rt: &impl Print, place: &str, setting: &[&str], table: &[u32]) -> Result<(), Fault> {
    let mut room = [0u8; 64];
    let setting = values(setting, &mut room)?;
    say_looked(rt, rule_calls::look_up(table, value(place)?, setting))
}

// `same P Q`
pub fn same(rt: &impl Print, a: &str, b: &str, table: &[u32]) -> Result<(), Fault> {
    let same = rule_calls::same(table, value(a)?, value(b)?);
    say_number(rt, same.map(|same| u8::from(same)))
}

// `count P NUMBER`
pub fn count(rt: &impl Print, place: &str, number: &str, table: &[u32]) -> Result<(), Fault> {
    say_number(
        rt,
        rule_operations::count(table, value(place)?, value(number)?),
    )
}

// `next P NUMBER V0 V1 ..`: the setting is printed with as many values as there are features.
pub fn next(
    rt: &impl Print,
    place: &str,
    number: &str,
    from: &[&str],
    count: usize,
    table: &[u32],
) -> Result<(), Fault> {
    let mut room = [0u8; 64];
    let from = values(from, &mut room)?;
    let met = rule_operations::next(table, value(place)?, value(number)?, from);
    let ending = outcome_number(&met);
    let setting = met.unwrap_or_default();
    print!(rt; "{ending}{}", Values { setting, count })?;
    Ok(())
}

// `tally`
pub fn tally(rt: &impl Print, table: &[u32]) -> Result<(), Fault> {
    say_number(rt, rule_calls::tally(table))
}
