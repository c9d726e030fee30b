// Which command on a cost table the words are.
use crate::changes::change;
use crate::questions::{look, open, same, tally};
use shelf_lines::{Fault, Scratch, Table, poke, say, say_sum, say_word};

// The command that the words are, where it is one on a cost table.
pub fn cost_command(
    rt: &impl Print,
    words: &[&str],
    table: &mut Table,
    scratch: &mut Scratch,
) -> Result<(), Fault> {
    match words {
        ["cword", index] => say_word(rt, index, &table.buffer),
        ["cpoke", index, word] => poke(rt, index, word, &mut table.buffer),
        ["csum"] => say_sum(rt, &table.buffer),
        ["copen", capacity, sizes @ ..] => open(rt, capacity, sizes, table),
        ["clook", place, setting @ ..] => look(rt, place, setting, table.buffer.lent()),
        ["csame", a, b] => same(rt, a, b, table.buffer.lent()),
        ["ctally"] => tally(rt, table.buffer.lent()),
        _ => say(rt, change(words, table.buffer.lent(), scratch)?),
    }
}
