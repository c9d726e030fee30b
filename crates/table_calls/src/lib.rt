// What the calls of every kind of table share: the door, a fresh table opened, whether bytes are a setting of its features, whether two
// tables have one list; the promise and the laws of calls that write.
#![tactic(auto)]

mod door; // door.rt: places tested
mod fitting; // fitting.rt: settings tested
mod matching; // matching.rt: feature lists compared
mod opening; // opening.rt: a fresh table

pub use door::{admit, are_places};
pub use fitting::setting_fits;
pub use matching::same_features;
pub use opening::open;
