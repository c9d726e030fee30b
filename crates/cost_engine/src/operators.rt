// The operators on costs, in words that stand for integers: what a result adds, and the difference of two targets on the way.
ghost use Rattle.std.specs.Prelude.{◌≡◌, ◌*◌, ◌≤◌, pos, ◌*ℤ◌};
ghost use Rattle.theory_costs.specs.Relative.{onward};
ghost use Rattle.cost_engine.specs.Joint.{op_of, ahead, gap};
ghost use Rattle.promises.specs.Integers.{Fit, int};
ghost use Rattle.promises.specs.CostOperations.{smaller_of, larger_of};
ghost use Rattle.promises.specs.Range.{add_most};

use cost_notes::Operation;
use cost_words::{ZERO, difference_word, sum_word};

// What joins two costs; scale has one, and the word that stands for its factor.
#[derive(Clone, Copy)]
pub enum Operator {
    Add,
    Subtract,
    Smaller,
    Larger,
    Scale(u32),
}

// The operator without its factor.
pub fn operation_of(o: Operator) -> Operation {
    match o {
        Operator::Add => Operation::Add,
        Operator::Subtract => Operation::Subtract,
        Operator::Smaller => Operation::Smaller,
        Operator::Larger => Operation::Larger,
        Operator::Scale(_) => Operation::Scale,
    }
}

// The word that stands for 0, where words are added up and multiplied.
const WIDE_ZERO: i64 = 2147483648;

// The word that stands for the product of two.
fn product_word(a: u32, c: u32) -> u32
    requires { Fit add_most (int a *ℤ int c) }
    ensures { int result ≡ int a *ℤ int c }
{
    let product = (i64::from(a) - WIDE_ZERO) * (i64::from(c) - WIDE_ZERO);
    (product + WIDE_ZERO) as u32
}

// The word of a difference one branch on: with what the second adds, less what the first adds.
fn onward_word(d: u32, a: u32, b: u32) -> u32
    requires { Fit add_most (onward (int d) (int a) (int b)) }
    ensures { int result ≡ onward (int d) (int a) (int b) }
{
    (u64::from(d) + u64::from(b) - u64::from(a)) as u32
}

// What is put before the result of two targets, where their branches add a and b.
pub fn ahead_word(o: Operator, a: u32, b: u32) -> u32
    requires { Fit add_most (ahead o (int a) (int b)) }
    ensures { int result ≡ ahead o (int a) (int b) }
{
    match o {
        Operator::Add => sum_word(a, b),
        Operator::Subtract => difference_word(a, b),
        Operator::Smaller | Operator::Larger => a,
        Operator::Scale(c) => product_word(a, c),
    }
}

// How much more the second target has on it there.
pub fn gap_word(o: Operator, d: u32, a: u32, b: u32) -> u32
    requires { Fit add_most (gap o (int d) (int a) (int b)) }
    ensures { int result ≡ gap o (int d) (int a) (int b) }
{
    match o {
        Operator::Add | Operator::Subtract | Operator::Scale(_) => d,
        Operator::Smaller | Operator::Larger => onward_word(d, a, b),
    }
}

// The result where both have ended: the operator of 0 and d.
pub fn end_word(o: Operator, d: u32) -> u32
    requires { Fit add_most (op_of o (pos 0) (int d)) }
    ensures { int result ≡ op_of o (pos 0) (int d) }
{
    match o {
        Operator::Add => d,
        Operator::Subtract => difference_word(ZERO, d),
        Operator::Smaller => d.min(ZERO),
        Operator::Larger => d.max(ZERO),
        Operator::Scale(_) => ZERO,
    }
}
