// The operators on phrase numbers: apply's five, CASE and forget.
#![tactic(auto)]

ghost use Rattle.std.specs.Prelude.{◌≡◌, ◌↔◌, ◌⊎◌, ◌≤◌, ◌<◌, IsTrue, MatchOption, length, drop};
ghost use Rattle.table_words.specs.Words.{listed};
ghost use Rattle.rule_operators.specs.Operators.{op_of, number_of, forgotten_by};
ghost use Rattle.promises.specs.Operators.{case_of, merged_of, forgotten_of};

// What is left of numbers that differ: the phrase that asks back.
const SEVERAL: u32 = 65535;

// The operators: apply's five, CASE, and forget with the feature that is forgotten.
#[derive(Clone, Copy, PartialEq, Eq, Debug)]
pub enum Operator {
    Smaller,
    Larger,
    Equal,
    Less,
    Differ,
    Case,
    Forget(usize),
}

impl Operator {
    // Apply's operator of a number.
    pub fn of_apply(number: u32) -> Option<Operator>
        ensures { MatchOption result ((number < 1) ⊎ (5 < number)) (λ o. (number_of o ≡ number) × (1 ≤ number) × (number ≤ 5)) }
    {
        match number {
            1 => Some(Operator::Smaller),
            2 => Some(Operator::Larger),
            3 => Some(Operator::Equal),
            4 => Some(Operator::Less),
            5 => Some(Operator::Differ),
            _ => None,
        }
    }

    // Its number: apply's, 6 for CASE, 7 for forget.
    pub fn number(&self) -> u32
        ensures { result ≡ number_of self.now }
    {
        match self {
            Operator::Smaller => 1,
            Operator::Larger => 2,
            Operator::Equal => 3,
            Operator::Less => 4,
            Operator::Differ => 5,
            Operator::Case => 6,
            Operator::Forget(_) => 7,
        }
    }

    // Whether it forgets feature k.
    pub fn forgets(&self, k: usize) -> bool
        requires { k < 16 }
        ensures { IsTrue result ↔ (forgotten_by self.now ≡ k) }
    {
        match self {
            Operator::Forget(feature) => *feature == k,
            _ => false,
        }
    }
}

// CASE: the first number chooses among the others.
fn chosen(vals: &[u32]) -> u32
    requires { 1 ≤ length vals.now }
    ensures { result ≡ case_of (listed vals.now 0) (drop 1 vals.now) }
{
    let others = &vals[1..];
    others.get(vals[0] as usize).copied().unwrap_or(0)
}

// Two numbers as one: 0 gives way, and two others that differ are 65,535.
fn merged(x: u32, y: u32) -> u32
    ensures { result ≡ merged_of x y }
{
    if x == 0 {
        return y;
    }
    if y == 0 {
        return x;
    }
    if x == y {
        return y;
    }
    SEVERAL
}

// FORGET's rule: the number that stands for those over the values of the forgotten feature.
fn forgotten(vals: &[u32]) -> u32
    ensures { result ≡ forgotten_of vals.now }
{
    vals.iter()
        .rev()
        .fold(0, |left, number| merged(*number, left))
}

// The operator on the numbers.
pub fn combine(operator: &Operator, vals: &[u32]) -> u32
    requires { 2 ≤ length vals.now }
    ensures { result ≡ op_of (number_of operator.now) vals.now }
{
    let (x, y) = (vals[0], vals[1]);
    match operator {
        Operator::Smaller => x.min(y),
        Operator::Larger => x.max(y),
        Operator::Equal => u32::from(x == y),
        Operator::Less => u32::from(x < y),
        Operator::Differ => u32::from(x != y),
        Operator::Case => chosen(vals),
        Operator::Forget(_) => forgotten(vals),
    }
}
