// The engine of CHOOSE: where a rule of a lent rule table is not 0 the first of two costs, else the second, with remembered results in lent scratch words or in the far records.
#![tactic(auto)]

ghost use Rattle.std.specs.Prelude.{◌≡◌, ◌≤◌, ◌<◌};
ghost use Rattle.theory.specs.Diagrams.{meaning};
ghost use Rattle.table_records.specs.Laid.{Laid};
ghost use Rattle.table_notes.specs.Plain.{plain};
ghost use Rattle.rule_lending.specs.Lending.{lent, Lends, key_of, keys};
ghost use Rattle.cost_nodes.specs.Nodes.{Result, Fills};
ghost use Rattle.both_choose.specs.Choice.{Choosable, choice, choice_of, end_of, Choices, Branches, Lowest};
ghost use Rattle.both_choose.specs.Memory.{tag_of, Noted, Still};
ghost use Rattle.promises.specs.Integers.{int};
ghost use Rattle.promises.specs.CostOperations.{chosen};
ghost use Rattle.promises.specs.Words.{features, count};
ghost use Rattle.promises.specs.CostWords.{target, cost_branch as branch, cost_node_list as nodes};

use cost_nodes::Arm;
use cost_notes::{Operation, arm_in, lowest, make_in, recall_in, remember_in};
use cost_words::{ZERO, difference_word, sum_word};
use rule_lending::{branch_at, is_number, key_of, number_of, top_at};
use table_notes::{begin, clear, clear_far, clear_window};
use table_words::{capacity_word, size_word};

// The lowest feature that the rule's branch or one of two targets tests.
fn lowest_of(r: &[u32], t: &[u32], b: u32, x: u32, y: u32) -> usize
    requires { (Lends r.now b) × (Laid (plain t.now)) × (x ≤ count (plain t.now)) × (y ≤ count (plain t.now)) }
    ensures { Lowest r.now (plain t.now) b x y result }
{
    top_at(r, b).min(lowest(t, x, y))
}

// The tag that the results for feature k and the rule's branch b are remembered under.
fn tag_of(k: usize, b: u32) -> u32
    requires { (k < 16) × (key_of b < keys) }
    ensures { result ≡ tag_of k b }
{
    (k + 1) as u32 + 32 * key_of(b)
}

// Where the rule has ended with the number n: the first target, or where n is 0 the second with d on it.
fn ended(n: u32, x: u32, y: u32, d: u32) -> Arm
    ensures { result ≡ end_of n x y d }
{
    if n == 0 {
        Arm { to: y, adds: d }
    } else {
        Arm { to: x, adds: ZERO }
    }
}

// The functions below take the lent tables and the memory side by side: what holds of a walk's words speaks of these slices, which no struct here may own.

// The choice of two targets from feature k on, where the second has d more on it: one node's result, None where there is no room. Where the rule has ended it
// is there already.
#[cycle(branch_result_fill_branches_rest_result)]
fn rest_result(
    r: &[u32],
    t: &mut [u32],
    s: &mut [u32],
    k: usize,
    b: u32,
    x: u32,
    y: u32,
    d: u32,
) -> Option<Arm>
    requires { (Choices r.now (plain t.old) k b x y (int d)) × (Noted r.now t.old s.old) }
    ensures { (Result (plain t.old) (plain t.new) k
        (choice (lent r.now k b) (nodes (plain t.old)) k (target x) (target y) (int d)) result) × (Still r.now t.new s.new result) }
{
    if is_number(b) {
        return Some(ended(number_of(b), x, y, d));
    }
    let m = lowest_of(r, t, b, x, y);
    if k < m {
        return rest_result(r, t, s, m, b, x, y, d);
    }
    let tag = tag_of(k, b);
    if let Some((to, adds)) = recall_in(t, s, Operation::Choose, tag, x, y, d) {
        return Some(Arm { to, adds });
    }
    let arms = fill_branches(r, t, s, k, b, x, y, d)?;
    let a = make_in(t, k, &arms)?;
    remember_in(t, s, Operation::Choose, tag, x, y, d, a.to, a.adds);
    Some(a)
}

// Its branches: the results for the values of feature k in turn, or None where there was no room for them.
#[cycle(branch_result_fill_branches_rest_result)]
fn fill_branches(
    r: &[u32],
    t: &mut [u32],
    s: &mut [u32],
    k: usize,
    b: u32,
    x: u32,
    y: u32,
    d: u32,
) -> Option<[Arm; 8]>
    requires { (Choices r.now (plain t.old) k b x y (int d)) × (Noted r.now t.old s.old) × (k < features (plain t.old)) }
    ensures { (Fills (plain t.old) (plain t.new) k
        (choice (lent r.now k b) (nodes (plain t.old)) k (target x) (target y) (int d)) result)
        × (Still r.now t.new s.new result) }
{
    let mut arms = [Arm { to: 0, adds: 0 }; 8];
    for v in 0..size_word(t, k) as usize {
        let c = branch_at(r, k, b, v);
        let p = arm_in(t, k, x, v);
        let q = arm_in(t, k, y, v);
        arms[v] = branch_result(r, t, s, k + 1, c, p, q, d)?;
    }
    Some(arms)
}

// The choice of two branches from feature k on: that of their targets, with what the first adds put before it.
#[cycle(branch_result_fill_branches_rest_result)]
fn branch_result(
    r: &[u32],
    t: &mut [u32],
    s: &mut [u32],
    k: usize,
    b: u32,
    p: Arm,
    q: Arm,
    d: u32,
) -> Option<Arm>
    requires { (Branches r.now (plain t.old) k b p.to p.adds q.to q.adds (int d)) × (Noted r.now t.old s.old) }
    ensures { (Result (plain t.old) (plain t.new) k
        (choice_of (lent r.now k b) (nodes (plain t.old)) k (branch p.to p.adds) (branch q.to q.adds) (int d)) result)
        × (Still r.now t.new s.new result) }
{
    let g = difference_word(sum_word(d, q.adds), p.adds);
    let rest = rest_result(r, t, s, k, b, p.to, q.to, g)?;
    Some(Arm {
        to: rest.to,
        adds: sum_word(p.adds, rest.adds),
    })
}

// The chosen cost of two branches by the rule of the branch b, built after the table's nodes, with remembered results in s or in the far records,
// which are 0 again; None where there is no room.
fn choose_in(r: &[u32], t: &mut [u32], s: &mut [u32], b: u32, x: Arm, y: Arm) -> Option<Arm>
    requires { Choosable r.now t.old b (branch x.to x.adds) (branch y.to y.adds) }
    ensures { Result t.old t.new 0
        (chosen (lent r.now 0 b) (meaning (nodes t.old) (branch x.to x.adds)) (meaning (nodes t.old) (branch y.to y.adds))) result }
{
    let lent = begin(t, s.len());
    clear(&mut s[0..lent]);
    let Some(a) = branch_result(r, t, &mut s[0..lent], 0, b, x, y, ZERO) else {
        clear_far(t);
        return None;
    };
    clear_window(t);
    Some(a)
}

// The same; where the scratch and the far records are short, own words stand in for the scratch.
pub fn choose_costs(r: &[u32], t: &mut [u32], s: &mut [u32], b: u32, x: Arm, y: Arm) -> Option<Arm>
    requires { Choosable r.now t.old b (branch x.to x.adds) (branch y.to y.adds) }
    ensures { Result t.old t.new 0
        (chosen (lent r.now 0 b) (meaning (nodes t.old) (branch x.to x.adds)) (meaning (nodes t.old) (branch y.to y.adds))) result }
{
    if capacity_word(t) < 384 && s.len() < 6144 {
        return choose_in(r, t, &mut [0; 6144], b, x, y);
    }
    choose_in(r, t, s, b, x, y)
}
