// The end of every call that builds: the result is put into its place, or what was built is taken back.
// It stands beside rule_settling: a rule's branch is a word, a cost's a target and an added integer, so what they do with one differs.
#![tactic(auto)]

ghost use Rattle.cost_settling.specs.Settling.{Asks, Settled};

use cost_collect::finish;
use cost_nodes::Arm;
use settings::Refusal;
use table_records::roll_back;

// What was built into a table of n nodes becomes the cost of the place; where there was no room it is taken back.
pub fn settle(t: &mut [u32], place: usize, n: usize, r: Option<Arm>) -> Result<(), Refusal>
    requires { Asks place n t.old r }
    ensures { Settled place n t.old t.new r result }
{
    let Some(b) = r else {
        roll_back(t, n);
        return Err(Refusal::NoRoom);
    };
    finish(t, place, b.to, b.adds);
    Ok(())
}
