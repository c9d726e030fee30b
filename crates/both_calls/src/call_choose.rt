// Choose: one of two costs, as a rule says at each setting.
ghost use Rattle.std.specs.Prelude.{◌≡◌, ◌<◌};
ghost use Rattle.promises.specs.Words.{sizes};
ghost use Rattle.promises.specs.RuleWords.{rule_of};
ghost use Rattle.promises.specs.RuleSound.{RuleSound};
ghost use Rattle.promises.specs.CostWords.{cost_of};
ghost use Rattle.promises.specs.CostSound.{CostSound};
ghost use Rattle.promises.specs.CostOperations.{chosen};
ghost use Rattle.promises.specs.Deed.{Meets};
ghost use Rattle.promises.specs.BothDeeds as B;
ghost use Rattle.cost_settling.specs.Settling.{Puts};

use crate::at_the_door::door;
use both_choose::choose_costs;
use cost_nodes::arm_of;
use cost_settling::settle;
use rule_lending::root_of;
use settings::Refusal;
use table_words::count_word;

// The choice becomes the cost of the place.
fn put_choice(
    t: &mut [u32],
    rules: &[u32],
    scratch: &mut [u32],
    place: usize,
    rule: usize,
    a: usize,
    b: usize,
) -> Result<(), Refusal>
    requires { (RuleSound rules.now) × (CostSound t.old) × (sizes rules.now ≡ sizes t.old) × (place < 16) × (rule < 32) × (a < 16) × (b < 16) }
    ensures { Puts place (chosen (rule_of rules.now rule) (cost_of t.old a) (cost_of t.old b)) t.old t.new result }
{
    let used = count_word(t) as usize;
    let x = arm_of(t, a);
    let y = arm_of(t, b);
    let r = choose_costs(rules, t, scratch, root_of(rules, rule), x, y);
    settle(t, place, used, r)
}

// The cost of the place becomes that of the first place where the rule is not 0, else that of the second.
pub fn choose(
    t: &mut [u32],
    rules: &[u32],
    scratch: &mut [u32],
    place: usize,
    rule: usize,
    a: usize,
    b: usize,
) -> Result<(), Refusal>
    ensures { Meets (B.choose place rule a b) (rules.now, t.old) (rules.now, t.new) result }
{
    door(rules, t, &[rule], &[place, a, b])?;
    put_choice(t, rules, scratch, place, rule, a, b)
}
