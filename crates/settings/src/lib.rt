// Feature lists, settings and refusal numbers: what every later crate uses.
#![tactic(auto)]

mod refusals; // refusals.rt: the refusals, how a call ends, and their numbers
mod ranges; // ranges.rt: whether bytes are a feature list, or a setting of one
mod steps; // steps.rt: a setting by value, and the stepper

pub use ranges::{features_ok, setting_ok};
pub use refusals::{Outcome, Refusal, outcome_number, refusal_number};
pub use steps::{Setting, Stepped};
