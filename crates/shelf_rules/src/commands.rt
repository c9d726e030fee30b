// Which command on a rule table the words are.
use crate::changes::change;
use crate::questions::{count, literal, look, next, open, same, tally};
use crate::sheeting::{look_in_sheet, read, write};
use shelf_lines::{Fault, Scratch, Table, poke, say, say_sum, say_word};

// A call.
fn call(
    rt: &impl Print,
    words: &[&str],
    table: &mut Table,
    scratch: &mut Scratch,
) -> Result<(), Fault> {
    let features = table.features;
    let lent = table.buffer.lent();
    match words {
        ["literal", place, feature, bits] => literal(rt, place, feature, bits, lent),
        ["look", place, setting @ ..] => look(rt, place, setting, lent),
        ["same", a, b] => same(rt, a, b, lent),
        ["count", place, number] => count(rt, place, number, lent),
        ["next", place, number, from @ ..] => next(rt, place, number, from, features, lent),
        ["tally"] => tally(rt, lent),
        ["write", place, length] => write(rt, place, length, lent),
        ["read", place, sheet] => read(rt, place, sheet, lent),
        ["slook", sheet, setting @ ..] => look_in_sheet(rt, sheet, setting),
        _ => say(rt, change(words, lent, scratch)?),
    }
}

// The command that the words are, where it is one on a rule table or a sheet.
pub fn rule_command(
    rt: &impl Print,
    words: &[&str],
    table: &mut Table,
    scratch: &mut Scratch,
) -> Result<(), Fault> {
    match words {
        ["word", index] => say_word(rt, index, &table.buffer),
        ["poke", index, word] => poke(rt, index, word, &mut table.buffer),
        ["sum"] => say_sum(rt, &table.buffer),
        ["open", capacity, sizes @ ..] => open(rt, capacity, sizes, table),
        _ => call(rt, words, table, scratch),
    }
}
