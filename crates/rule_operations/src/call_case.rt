// CASE: of several rules the one whose index is a selector's number.
ghost use Rattle.std.specs.Prelude.{◌≤◌, ◌<◌, length};
ghost use Rattle.settings.specs.Tells.{Tells};
ghost use Rattle.promises.specs.RuleSound.{RuleSound};
ghost use Rattle.promises.specs.State.{Places};
ghost use Rattle.promises.specs.Deed.{Meets};
ghost use Rattle.promises.specs.RuleDeeds as D;
ghost use Rattle.rule_operations.specs.Joining.{Handed, Lined};

use crate::joining::put_joint;
use rule_calls::door;
use rule_count::{gives, reaches};
use rule_operators::Operator;
use rule_words::root_word;
use settings::Refusal;

// What is handed on for branch j: its root word; or, where the selector gives j at no setting, 0, with which the walk meets no more combinations.
fn handed(t: &[u32], selector: usize, j: usize, branch: u32) -> u32
    requires { (RuleSound t.now) × (selector < 32) × (j < 8) × (branch < 32) }
    ensures { Handed t.now selector j branch result }
{
    if gives(t, selector, j as u32) {
        root_word(t, branch as usize)
    } else {
        0
    }
}

// The root word of the selector and what is handed on for the branches, in a row.
fn lined(t: &[u32], selector: usize, branches: &[u32]) -> [u32; 9]
    requires { (RuleSound t.now) × (selector < 32) × (Places 32 branches.now) × (length branches.now ≤ 8) }
    ensures { Lined t.now selector branches.now result }
{
    let mut ops = [0u32; 9];
    ops[0] = root_word(t, selector);
    for (j, branch) in branches.iter().enumerate() {
        ops[1 + j] = handed(t, selector, j, *branch);
    }
    ops
}

// The rule of the place becomes, at each setting, that of the branches whose index is the selector's number.
pub fn case(
    t: &mut [u32],
    scratch: &mut [u32],
    place: usize,
    selector: usize,
    branches: &[u32],
) -> Result<(), Refusal>
    ensures { Meets (D.case place selector branches.now) t.old t.new result }
{
    door(t, &[place, selector])?;
    if !branches.iter().all(|branch| *branch < 32) {
        return Err(Refusal::BadPlace);
    }
    let m = branches.len();
    if m < 1 || 8 < m {
        return Err(Refusal::BadArgument);
    }
    if reaches(t, selector, m as u32) {
        return Err(Refusal::BadSelector);
    }
    let ops = lined(t, selector, branches);
    put_joint(t, scratch, place, Operator::Case, &ops[..m + 1])
}
