// Bytes of a sheet laid into an output: a number, a branch.
#![tactic(auto)]

mod bytes; // bytes.rt: a cursor that writes numbers and branches

pub use bytes::Cursor;
