// Where nothing is walked: the operator of the branch words themselves is the branch of the result.
ghost use Rattle.std.specs.Prelude.{true, ◌≡◌};
ghost use Rattle.rule_operators.specs.Operators.{number_of, forgotten_by};
ghost use Rattle.rule_engine.specs.Shortcuts.{Short};

use rule_operators::Operator;
use rule_words::NUMBERS;

// Apply's: of two equal branches any; with the phrase 0 smaller, larger, and less than it. CASE whose selector is a phrase: it chooses a branch.
// Not while a feature is forgotten. x and y are the first two words.
pub fn shortcut(operator: &Operator, x: u32, y: u32) -> bool
    ensures { result ≡ true → Short (number_of operator.now) (forgotten_by operator.now) x y }
{
    match operator {
        Operator::Smaller | Operator::Larger => x == y || x.min(y) == 0,
        Operator::Less => x == y || y == 0,
        Operator::Equal | Operator::Differ => x == y,
        Operator::Case => x < NUMBERS,
        Operator::Forget(_) => false,
    }
}
