// The bytes of a rule sheet, edition 1: numbers, sections and nodes read from where they stand.
#![tactic(auto)]

mod bytes; // bytes.rt: numbers in bytes
mod hand; // hand.rt: a branch in bytes
mod front; // front.rt: the sections before the nodes
mod laying; // laying.rt: where each node begins

pub use front::{Head, newer};
pub use laying::{Laid, lay};

// Phrase numbers are below this; as a branch of a sheet, NUMBERS + i is node i.
pub const NUMBERS: usize = 65536;

// A sheet of edition 1 has one root.
pub const ROOTS: usize = 1;
