// A line of `shelf` and its answer: words and numbers read, answers written; the words that are lent.
#![tactic(auto)]

mod faults; // faults.rt: why a line has no answer of a command
mod numbers; // numbers.rt: decimal numbers, and what a parameter is passed for one
mod words; // words.rt: the words of a line, and lists of numbers
mod hex; // hex.rt: bytes as hex digits, read and written
mod saying; // saying.rt: the parts of an answer, written to standard output
mod desk; // desk.rt: what is lent to the calls
mod buffers; // buffers.rt: the commands on the words of a buffer
mod own; // own.rt: the commands on neither table

pub use buffers::{poke, say_sum, say_word};
pub use desk::{Buffer, Desk, Scratch, Table};
pub use faults::Fault;
pub use hex::{Hex, bytes_in};
pub use numbers::{Parameter, at_most, value};
pub use own::own_command;
pub use saying::{Values, say, say_looked, say_number};
pub use words::{parts, values};
