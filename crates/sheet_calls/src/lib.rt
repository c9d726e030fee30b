// Rule sheets between a table and bytes: write and read.
#![tactic(auto)]

mod call_read; // call_read.rt: a sheet's rule into a place
mod call_write; // call_write.rt: a place's sheet into bytes

pub use call_read::read;
pub use call_write::write;
