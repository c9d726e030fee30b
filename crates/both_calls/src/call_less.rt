// Less: the rule that is 1 where one cost is below another.
ghost use Rattle.std.specs.Prelude.{◌≡◌, ◌<◌};
ghost use Rattle.promises.specs.Words.{sizes};
ghost use Rattle.promises.specs.RuleSound.{RuleSound};
ghost use Rattle.promises.specs.CostWords.{cost_of};
ghost use Rattle.promises.specs.CostSound.{CostSound};
ghost use Rattle.promises.specs.CostOperations.{is_below};
ghost use Rattle.promises.specs.Deed.{Meets};
ghost use Rattle.promises.specs.BothDeeds as B;
ghost use Rattle.rule_lending.specs.Settling.{Puts};

use crate::at_the_door::door;
use both_less::below;
use cost_nodes::arm_of;
use rule_lending::{begin, settle};
use settings::Refusal;

// The comparison becomes the rule of the place.
fn put_below(
    t: &mut [u32],
    costs: &[u32],
    scratch: &mut [u32],
    place: usize,
    a: usize,
    b: usize,
) -> Result<(), Refusal>
    requires { (RuleSound t.old) × (CostSound costs.now) × (sizes t.old ≡ sizes costs.now) × (place < 32) × (a < 16) × (b < 16) }
    ensures { Puts place (is_below (cost_of costs.now a) (cost_of costs.now b)) t.old t.new result }
{
    let used = begin(t);
    let x = arm_of(costs, a);
    let y = arm_of(costs, b);
    let r = below(costs, t, scratch, x, y);
    settle(t, place, used, r)
}

// The rule of the place becomes 1 where the cost of the first place is below that of the second, else 0.
pub fn less(
    t: &mut [u32],
    costs: &[u32],
    scratch: &mut [u32],
    place: usize,
    a: usize,
    b: usize,
) -> Result<(), Refusal>
    ensures { Meets (B.less_than place a b) (t.old, costs.now) (t.new, costs.now) result }
{
    door(t, costs, &[place], &[a, b])?;
    put_below(t, costs, scratch, place, a, b)
}
