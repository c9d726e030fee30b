// Carries the definitions of specs/: the crate's one function says nothing of them.
#![tactic(auto)]

pub fn keep(x: u32) -> u32 {
    x
}
