// Carries the laws of specs/ and proofs/, theorems over several calls on one table: the crate's one function says nothing of them.
#![tactic(auto)]

pub fn keep(x: u32) -> u32 {
    x
}
