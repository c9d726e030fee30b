// Carries the demands of specs/ and proofs/, theorems over the promises of all calls: the crate's one function says nothing of them.
#![tactic(auto)]

pub fn keep(x: u32) -> u32 {
    x
}
