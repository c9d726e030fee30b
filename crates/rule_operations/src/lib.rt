// The operations of the rule table: literal, CASE, apply, restrict, forget, count, next.
#![tactic(auto)]

mod call_apply; // call_apply.rt: the operator of two places' numbers
mod call_case; // call_case.rt: of several places' numbers the one that a selector names
mod call_count; // call_count.rt: how many settings have a number
mod call_forget; // call_forget.rt: a feature removed
mod call_literal; // call_literal.rt: a set of a feature's values
mod call_next; // call_next.rt: the first setting with a number
mod call_restrict; // call_restrict.rt: a feature held at a value
mod joining; // joining.rt: the joint rule of several operands into a place

pub use call_apply::apply;
pub use call_case::case;
pub use call_count::count;
pub use call_forget::forget;
pub use call_literal::literal;
pub use call_next::next;
pub use call_restrict::restrict;
