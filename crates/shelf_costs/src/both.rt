// The commands on a rule table and a cost table: choose, less, lowest.
use settings::outcome_number;
use shelf_lines::{Desk, Fault, Values, say, value};

// `choose P RULE A B`
fn choose(
    rt: &impl Print,
    place: &str,
    rule: &str,
    a: &str,
    b: &str,
    desk: &mut Desk,
) -> Result<(), Fault> {
    let (place, rule) = (value(place)?, value(rule)?);
    let (a, b) = (value(a)?, value(b)?);
    let chosen = both_calls::choose(
        desk.costs.buffer.lent(),
        desk.rules.buffer.lent(),
        desk.scratch.filled(),
        place,
        rule,
        a,
        b,
    );
    say(rt, chosen)
}

// `less RULE A B`
fn less(rt: &impl Print, rule: &str, a: &str, b: &str, desk: &mut Desk) -> Result<(), Fault> {
    let (rule, a, b) = (value(rule)?, value(a)?, value(b)?);
    let compared = both_calls::less(
        desk.rules.buffer.lent(),
        desk.costs.buffer.lent(),
        desk.scratch.filled(),
        rule,
        a,
        b,
    );
    say(rt, compared)
}

// `lowest A RULE`: the setting has as many values as the cost table's list.
fn lowest(rt: &impl Print, place: &str, rule: &str, desk: &mut Desk) -> Result<(), Fault> {
    let count = desk.costs.features;
    let (place, rule) = (value(place)?, value(rule)?);
    let found = both_calls::lowest(
        desk.costs.buffer.lent(),
        desk.rules.buffer.lent(),
        desk.scratch.filled(),
        place,
        rule,
    );
    let ending = outcome_number(&found);
    let found = found.unwrap_or_default();
    let setting = found.setting;
    print!(rt; "{ending} {}{}", found.cost, Values { setting, count })?;
    Ok(())
}

// The command that the words are, where it is one on both tables.
pub fn both_command(rt: &impl Print, words: &[&str], desk: &mut Desk) -> Result<(), Fault> {
    match words {
        ["choose", place, rule, a, b] => choose(rt, place, rule, a, b, desk),
        ["less", rule, a, b] => less(rt, rule, a, b, desk),
        ["lowest", place, rule] => lowest(rt, place, rule, desk),
        _ => Err(Fault::Unknown),
    }
}
