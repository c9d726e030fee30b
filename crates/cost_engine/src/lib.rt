// The engine of costs: one walk serves add, subtract, smaller, larger and scale on a cost table, with remembered results in lent scratch words or in the far records.
#![tactic(auto)]

mod operators; // operators.rt: the operators in words that stand for integers

ghost use Rattle.std.specs.Prelude.{◌<◌};
ghost use Rattle.theory.specs.Diagrams.{meaning};
ghost use Rattle.table_notes.specs.Plain.{plain};
ghost use Rattle.cost_nodes.specs.Nodes.{Result, Fills};
ghost use Rattle.cost_engine.specs.Joint.{together, Joinable, joint, joint_from, Operands, Branches};
ghost use Rattle.cost_engine.specs.Memory.{Noted, Still};
ghost use Rattle.promises.specs.Integers.{int};
ghost use Rattle.promises.specs.Words.{features};
ghost use Rattle.promises.specs.CostWords.{target, cost_branch as branch, cost_node_list as nodes};

use cost_nodes::Arm;
use cost_notes::{arm_in, lowest, make_in, recall_in, remember_in};
use cost_words::{ZERO, sum_word};
pub use operators::Operator;
use operators::{ahead_word, end_word, gap_word, operation_of};
use table_notes::{begin, clear, clear_far, clear_window};
use table_words::size_word;

// The result for two targets from feature k on, where the second has d more on it: one node's result, or None where there is no room.
#[cycle(branch_result_fill_branches_rest_result)]
fn rest_result(
    t: &mut [u32],
    s: &mut [u32],
    o: Operator,
    k: usize,
    x: u32,
    y: u32,
    d: u32,
) -> Option<Arm>
    requires { (Operands (plain t.old) o k x y (int d)) × (Noted t.old o s.old) }
    ensures { (Result (plain t.old) (plain t.new) k (joint_from o (nodes (plain t.old)) k (target x) (target y) (int d)) result)
        × (Still t.new o s.new result) }
{
    if x + y == 0 {
        return Some(Arm {
            to: 0,
            adds: end_word(o, d),
        });
    }
    let m = lowest(t, x, y);
    if k < m {
        return rest_result(t, s, o, m, x, y, d);
    }
    let operation = operation_of(o);
    let tag = (k + 1) as u32;
    if let Some((to, adds)) = recall_in(t, s, operation, tag, x, y, d) {
        return Some(Arm { to, adds });
    }
    let arms = fill_branches(t, s, o, k, x, y, d)?;
    let b = make_in(t, k, &arms)?;
    remember_in(t, s, operation, tag, x, y, d, b.to, b.adds);
    Some(b)
}

// Its branches: the results for the values of feature k in turn, or None where there was no room for them.
#[cycle(branch_result_fill_branches_rest_result)]
fn fill_branches(
    t: &mut [u32],
    s: &mut [u32],
    o: Operator,
    k: usize,
    x: u32,
    y: u32,
    d: u32,
) -> Option<[Arm; 8]>
    requires { (Operands (plain t.old) o k x y (int d)) × (Noted t.old o s.old) × (k < features (plain t.old)) }
    ensures { (Fills (plain t.old) (plain t.new) k (joint_from o (nodes (plain t.old)) k (target x) (target y) (int d)) result)
        × (Still t.new o s.new result) }
{
    let m = size_word(t, k) as usize;
    let mut arms = [Arm { to: 0, adds: 0 }; 8];
    for v in 0..m {
        let a = arm_in(t, k, x, v);
        let b = arm_in(t, k, y, v);
        let c = branch_result(t, s, o, k + 1, a, b, d)?;
        arms[v] = c;
    }
    Some(arms)
}

// The result for two branches from feature k on: that of their targets, with what both add put before it.
#[cycle(branch_result_fill_branches_rest_result)]
fn branch_result(
    t: &mut [u32],
    s: &mut [u32],
    o: Operator,
    k: usize,
    a: Arm,
    b: Arm,
    d: u32,
) -> Option<Arm>
    requires { (Branches (plain t.old) o k a.to a.adds b.to b.adds (int d)) × (Noted t.old o s.old) }
    ensures { (Result (plain t.old) (plain t.new) k
        (joint o (nodes (plain t.old)) k (branch a.to a.adds) (branch b.to b.adds) (int d)) result) × (Still t.new o s.new result) }
{
    let g = gap_word(o, d, a.adds, b.adds);
    let rest = rest_result(t, s, o, k, a.to, b.to, g)?;
    Some(Arm {
        to: rest.to,
        adds: sum_word(ahead_word(o, a.adds, b.adds), rest.adds),
    })
}

// The joint cost of two branches, built after the table's nodes, with remembered results in s, whatever it holds, or in the far records, which are 0 again;
// None where there is no room.
pub fn join_costs(t: &mut [u32], s: &mut [u32], o: Operator, a: Arm, b: Arm) -> Option<Arm>
    requires { Joinable t.old o (branch a.to a.adds) (branch b.to b.adds) }
    ensures { Result t.old t.new 0
        (together o (meaning (nodes t.old) (branch a.to a.adds)) (meaning (nodes t.old) (branch b.to b.adds))) result }
{
    let lent = begin(t, s.len());
    clear(&mut s[0..lent]);
    let Some(c) = branch_result(t, &mut s[0..lent], o, 0, a, b, ZERO) else {
        clear_far(t);
        return None;
    };
    clear_window(t);
    Some(c)
}
