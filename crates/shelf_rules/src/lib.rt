// The commands of `shelf` on a rule table and its sheets.
#![tactic(auto)]

mod changes; // changes.rt: those that are answered by nothing but how the call ended
mod questions; // questions.rt: those with more of an answer, and the opening
mod sheeting; // sheeting.rt: those of rule sheets
mod commands; // commands.rt: which of them the words are

pub use commands::rule_command;
