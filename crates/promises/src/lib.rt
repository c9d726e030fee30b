// What the calls answer where they are taken and the answer is more than one value.
#![tactic(auto)]

use settings::Setting;

// What a look up in a rule or in a sheet gives: the number, and how many features were asked.
#[derive(Clone, Copy, PartialEq, Eq, Debug, Default)]
pub struct Looked {
    pub number: u32,
    pub asked: u32,
}

// What a look up in a cost gives: the cost, and how many features were asked.
#[derive(Clone, Copy, PartialEq, Eq, Debug, Default)]
pub struct CostLooked {
    pub cost: i64,
    pub asked: u32,
}

// The lowest cost, and the first setting that has it.
#[derive(Clone, Copy, PartialEq, Eq, Debug, Default)]
pub struct Found {
    pub cost: i64,
    pub setting: Setting,
}
