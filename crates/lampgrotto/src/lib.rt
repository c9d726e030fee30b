// The calls for C. Each answers the scope's refusal number, 0 where the call was taken; other results go into the lent words out,
// as many as fit.
#![tactic(auto)]

mod filing; // filing.rt: the calls between a table and sheets
mod reading; // reading.rt: the calls that only read, and the stepper
mod writing; // writing.rt: the calls that write a table

pub use filing::{lampgrotto_read, lampgrotto_write};
pub use reading::{
    lampgrotto_count, lampgrotto_next, lampgrotto_rule_look_up, lampgrotto_same, lampgrotto_step,
    lampgrotto_tally,
};
pub use writing::{
    lampgrotto_apply, lampgrotto_case, lampgrotto_constant, lampgrotto_copy, lampgrotto_forget,
    lampgrotto_literal, lampgrotto_open, lampgrotto_restrict,
};
