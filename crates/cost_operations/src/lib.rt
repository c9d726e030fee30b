// The operations of the cost table: price list, add, subtract, smaller, larger, scale.
// Add, subtract, smaller and larger are a line each: C calls each by its name.
#![tactic(auto)]

mod call_add; // call_add.rt: the sum of two places' costs
mod call_larger; // call_larger.rt: the larger of two places' costs
mod call_price; // call_price.rt: a price for each value of a feature
mod call_scale; // call_scale.rt: a place's cost times an integer
mod call_smaller; // call_smaller.rt: the smaller of two places' costs
mod call_subtract; // call_subtract.rt: the difference of two places' costs
mod joining; // joining.rt: two costs joined by an operator into a place

pub use call_add::add;
pub use call_larger::larger;
pub use call_price::price;
pub use call_scale::scale;
pub use call_smaller::smaller;
pub use call_subtract::subtract;
