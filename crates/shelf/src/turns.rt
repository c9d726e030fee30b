// Which command a line is, and the lines of standard input in turn.
ghost use Rattle.std.specs.Prelude.{IfOk};
ghost use Rattle.std.specs.Counts.{IsPrefixLen};

use shelf_costs::{both_command, cost_command};
use shelf_lines::{Desk, Fault, own_command, parts};
use shelf_rules::rule_command;
use std::io;
use std::io::Read;

// The most bytes that are read.
const INPUT: usize = 65536;

// The most words of a command: a name, two numbers and a list.
const COMMAND: usize = 67;

// The answer of the first family of commands that knows the words.
fn obey(rt: &impl Print, words: &[&str], desk: &mut Desk) -> Result<(), Fault> {
    match own_command(rt, words, desk) {
        Err(Fault::Unknown) => {}
        answered => return answered,
    }
    match rule_command(rt, words, &mut desk.rules, &mut desk.scratch) {
        Err(Fault::Unknown) => {}
        answered => return answered,
    }
    match cost_command(rt, words, &mut desk.costs, &mut desk.scratch) {
        Err(Fault::Unknown) => {}
        answered => return answered,
    }
    both_command(rt, words, desk)
}

// A line but for the end of its answer; an empty one has an empty answer.
fn answer(rt: &impl Print, line: &[u8], desk: &mut Desk) -> Result<(), Fault> {
    let Ok(text) = str::from_utf8(line) else {
        return Err(Fault::Unknown);
    };
    if text.is_empty() {
        return Ok(());
    }
    let mut room = [""; COMMAND];
    let words = parts(text, ' ', &mut room)?;
    obey(rt, words, desk)
}

// Each line of the input in turn, answered by a line.
fn answer_all(rt: &impl Print, input: &[u8]) -> io::Result<()> {
    let mut desk = Desk::new();
    for line in input.split_inclusive(|byte| *byte == b'\n') {
        let line = line.strip_suffix(b"\n").unwrap_or(line);
        match answer(rt, line, &mut desk) {
            Ok(()) => {}
            Err(Fault::Unknown) => rt.print("?")?,
            Err(Fault::Output(error)) => return Err(error),
        }
        rt.print("\n")?;
    }
    Ok(())
}

// Reads until the bytes are full or the input ends, and returns how many it put at their start. The loop waits on the reader: no chain of the library does.
fn read_full<R: Read>(reader: &mut R, bytes: &mut [u8]) -> io::Result<usize>
    ensures { IfOk result (λ n. IsPrefixLen n bytes.new) }
{
    let mut done: usize = 0;
    while done < bytes.len() {
        match reader.read(&mut bytes[done..])? {
            0 => break,
            n => done += n,
        }
    }
    Ok(done)
}

// Reads standard input once, at most 65,536 bytes, and answers each line; a read or a write that fails ends it with its error.
pub fn run(rt: &(impl Input + Print)) -> io::Result<()> {
    let mut input = [0u8; INPUT];
    let n = read_full(&mut rt.reader(), &mut input)?;
    answer_all(rt, &input[..n])
}
