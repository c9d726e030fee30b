// The calls that are lent a rule table and a cost table: choose, less, lowest. The rule table is known by its crates' promises alone.
#![tactic(auto)]

mod at_the_door; // at_the_door.rt: both tables and the places tested
mod call_choose; // call_choose.rt: one of two costs, as a rule says
mod call_less; // call_less.rt: where one cost is below another
mod call_lowest; // call_lowest.rt: the lowest cost that a rule marks

pub use call_choose::choose;
pub use call_less::less;
pub use call_lowest::lowest;
