// The cost calls for C. Each answers the scope's refusal number, 0 where the call was taken; other results go into the lent words out,
// as many as fit.
#![tactic(auto)]

mod both; // both.rt: the calls that are lent a rule table and a cost table
mod building; // building.rt: the calls that build nodes
mod reading; // reading.rt: the calls that only read
mod signed; // signed.rt: costs laid into lent words
mod writing; // writing.rt: the calls that write a table

pub use both::{lampgrotto_choose, lampgrotto_less, lampgrotto_lowest};
pub use building::{
    lampgrotto_add, lampgrotto_larger, lampgrotto_price, lampgrotto_scale, lampgrotto_smaller,
    lampgrotto_subtract,
};
pub use reading::{lampgrotto_cost_look_up, lampgrotto_cost_same, lampgrotto_cost_tally};
pub use writing::{lampgrotto_cost_constant, lampgrotto_cost_copy, lampgrotto_cost_open};
