// The exact check of a rule sheet, edition 1: what passes is the sheet of the rule that its bytes say.
#![tactic(auto)]

mod nodes; // nodes.rt: lawful form: where branches and roots may go
mod twins; // twins.rt: no idle node, and no two nodes are equal
mod order; // order.rt: the nodes stand as the walk from the roots finishes them
mod checking; // checking.rt: canonical form, and the whole check
mod checked; // checked.rt: bytes that passed the check

pub use checked::Sheet;
pub use checking::check;
