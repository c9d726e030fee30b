// The joint rule of several operands, built and put into a place: what apply, CASE and forget share.
ghost use Rattle.std.specs.Prelude.{◌<◌, length};
ghost use Rattle.promises.specs.RuleSound.{RuleSound};
ghost use Rattle.rule_engine.specs.Joint.{Operands, joint};
ghost use Rattle.rule_operators.specs.Operators.{number_of, forgotten_by};
ghost use Rattle.rule_settling.specs.Settling.{Puts};

use rule_engine::join;
use rule_operators::Operator;
use rule_settling::settle;
use settings::Refusal;
use table_words::count_word;

// The operator's joint rule of the operands becomes the rule of the place.
pub fn put_joint(
    t: &mut [u32],
    scratch: &mut [u32],
    place: usize,
    operator: Operator,
    ops: &[u32],
) -> Result<(), Refusal>
    requires { (RuleSound t.old) × (place < 32) × (Operands t.old (forgotten_by operator) (length ops.now) 0 ops.now) }
    ensures { Puts place (joint t.old (number_of operator) (forgotten_by operator) (length ops.now) 0 ops.now) t.old t.new result }
{
    let used = count_word(t) as usize;
    let r = join(t, scratch, &operator, ops);
    settle(t, place, used, r)
}
