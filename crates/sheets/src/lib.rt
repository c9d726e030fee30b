// The lookup straight in the bytes of a rule sheet, edition 1, of one setting and of many.
#![tactic(auto)]

mod call_look_up; // call_look_up.rt: the number at a setting, for Rattle and for C
mod call_look_up_all; // call_look_up_all.rt: the numbers at several settings, with one check of the sheet

pub use call_look_up::{lampgrotto_look_up, look_up};
pub use call_look_up_all::{lampgrotto_look_up_all, look_up_all};
