// The commands of `shelf` on a cost table, and on both tables.
#![tactic(auto)]

mod changes; // changes.rt: those that are answered by nothing but how the call ended
mod questions; // questions.rt: those with more of an answer, and the opening
mod commands; // commands.rt: which of them the words are
mod both; // both.rt: those on a rule table and a cost table

pub use both::both_command;
pub use commands::cost_command;
