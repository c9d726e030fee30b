// The cost table: opening, constant, copy, look up, same, tally; and the door of every call on a cost table.
// Most calls are two to four lines that name the words of their table; one function over both tables would be longer.
#![tactic(auto)]

mod at_the_door; // at_the_door.rt: the table and the places tested
mod call_constant; // call_constant.rt: a constant into a place
mod call_copy; // call_copy.rt: one place's cost into another
mod call_look_up; // call_look_up.rt: the cost at a setting
mod call_open; // call_open.rt: a fresh table
mod call_same; // call_same.rt: whether two places agree
mod call_tally; // call_tally.rt: how many distinct rests there are

pub use at_the_door::door;
pub use call_constant::constant;
pub use call_copy::copy;
pub use call_look_up::look_up;
pub use call_open::open;
pub use call_same::same;
pub use call_tally::tally;
