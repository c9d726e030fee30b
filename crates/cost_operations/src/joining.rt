// Two costs joined by an operator into a place: what add, subtract, smaller, larger and scale share.
ghost use Rattle.std.specs.Prelude.{◌<◌};
ghost use Rattle.theory.specs.Diagrams.{meaning};
ghost use Rattle.promises.specs.CostWords.{cost_branch as branch, cost_node_list as nodes};
ghost use Rattle.promises.specs.CostSound.{CostSound};
ghost use Rattle.promises.specs.Deed.{Meets};
ghost use Rattle.promises.specs.CostDeeds.{join};
ghost use Rattle.cost_engine.specs.Joint.{op_of, together};
ghost use Rattle.cost_range.specs.Operable.{Operable, Factored};
ghost use Rattle.cost_operations.specs.Joining.{Joins};

use cost_calls::door;
use cost_engine::{Operator, join_costs};
use cost_nodes::{Arm, arm_of};
use cost_range::in_range;
use cost_settling::settle;
use settings::Refusal;
use table_words::{capacity_word, count_word};

// The joint cost of two branches becomes that of the place. Its range is found by reading, before any room is taken; both walks remember in `scratch`
// or in the far records.
fn put_joint_in(
    t: &mut [u32],
    scratch: &mut [u32],
    place: usize,
    o: Operator,
    a: Arm,
    b: Arm,
) -> Result<(), Refusal>
    requires { (CostSound t.old) × (place < 16) × (Operable t.old o (branch a.to a.adds) (branch b.to b.adds)) }
    ensures { Joins place (together o (meaning (nodes t.old) (branch a.to a.adds)) (meaning (nodes t.old) (branch b.to b.adds)))
        t.old t.new result }
{
    if !in_range(t, scratch, o, a, b) {
        return Err(Refusal::Range);
    }
    let used = count_word(t) as usize;
    let r = join_costs(t, scratch, o, a, b);
    settle(t, place, used, r)
}

// The same; where the scratch and the far records are short, own words stand in for the scratch.
pub fn put_joint(
    t: &mut [u32],
    scratch: &mut [u32],
    place: usize,
    o: Operator,
    a: Arm,
    b: Arm,
) -> Result<(), Refusal>
    requires { (CostSound t.old) × (place < 16) × (Operable t.old o (branch a.to a.adds) (branch b.to b.adds)) }
    ensures { Joins place (together o (meaning (nodes t.old) (branch a.to a.adds)) (meaning (nodes t.old) (branch b.to b.adds)))
        t.old t.new result }
{
    if capacity_word(t) < 384 && scratch.len() < 6144 {
        return put_joint_in(t, &mut [0; 6144], place, o, a, b);
    }
    put_joint_in(t, scratch, place, o, a, b)
}

// The joint cost of two places becomes that of the place.
pub fn join_places(
    t: &mut [u32],
    scratch: &mut [u32],
    place: usize,
    o: Operator,
    a: usize,
    b: usize,
) -> Result<(), Refusal>
    requires { Factored o }
    ensures { Meets (join (op_of o) place a b) t.old t.new result }
{
    door(t, &[place, a, b])?;
    let x = arm_of(t, a);
    let y = arm_of(t, b);
    put_joint(t, scratch, place, o, x, y)
}
