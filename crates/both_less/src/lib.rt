// The engine of less: a walk over two costs of a cost table builds the rule "first below second" in a rule table, with remembered results in lent scratch words.
#![tactic(auto)]

ghost use Rattle.std.specs.Prelude.{◌≡◌, ◌<◌, replicate};
ghost use Rattle.theory.specs.Diagrams.{meaning};
ghost use Rattle.rule_lending.specs.Building.{Result, Fills};
ghost use Rattle.table_memory.specs.Memory.{Remembers};
ghost use Rattle.both_less.specs.Less.{Beside, Comparable, less_from, Operands};
ghost use Rattle.both_less.specs.Memory.{Recalled, Still};
ghost use Rattle.promises.specs.CostOperations.{is_below};
ghost use Rattle.promises.specs.Words.{features};
ghost use Rattle.promises.specs.CostWords.{cost_branch as branch, cost_node_list as nodes};

use cost_nodes::{Arm, arm_at, top_of};
use cost_notes::Operation;
use cost_words::{ZERO, difference_word, sum_word};
use rule_lending::{branch_of, make};
use table_memory::{recall, remember};
use table_notes::clear;
use table_words::size_word;

// The functions below take the lent tables and the memory side by side: what holds of a walk's words speaks of these slices, which no struct here may own.

// The rule's branch for two targets from feature k on, where the second has d more on it: one node's result, None where there is no room. Of equal targets
// the difference decides.
#[cycle(fill_branches_rest_result)]
fn rest_result(
    c: &[u32],
    t: &mut [u32],
    s: &mut [u32],
    k: usize,
    x: u32,
    y: u32,
    d: u32,
) -> Option<u32>
    requires { (Operands c.now k x y d) × (Beside c.now t.old) × (Remembers 4 (Recalled c.now t.old) s.old) }
    ensures { (Result t.old t.new k (less_from c.now k x y d) result) × (Still c.now t.new s.new result) }
{
    if x == y {
        return Some(branch_of(u32::from(ZERO < d)));
    }
    if k < top_of(c, x) && k < top_of(c, y) {
        return rest_result(c, t, s, k + 1, x, y, d);
    }
    let key = [(k + 1) as u32, x, y, d];
    if let Some((z, _)) = recall(s, Operation::Less as u32, &key) {
        return Some(z);
    }
    let mut list = [0u32; 12];
    fill_branches(c, t, s, k, x, y, d, &mut list)?;
    let z = make(t, k, list)?;
    remember(s, Operation::Less as u32, &key, z, 0);
    Some(z)
}

// Lays its branches into a list of 0: the results for the values of feature k in turn, each with its own difference; None where there was no room for them.
#[cycle(fill_branches_rest_result)]
fn fill_branches(
    c: &[u32],
    t: &mut [u32],
    s: &mut [u32],
    k: usize,
    x: u32,
    y: u32,
    d: u32,
    list: &mut [u32; 12],
) -> Option<()>
    requires { (Operands c.now k x y d) × (Beside c.now t.old) × (Remembers 4 (Recalled c.now t.old) s.old) × (k < features c.now) × (list.old ≡ replicate 12 0) }
    ensures { (Fills t.old t.new k (less_from c.now k x y d) result list.new) × (Still c.now t.new s.new result) }
{
    for v in 0..size_word(c, k) as usize {
        let a = arm_at(c, k, x, v);
        let b = arm_at(c, k, y, v);
        let g = difference_word(sum_word(d, b.adds), a.adds);
        list[v] = rest_result(c, t, s, k + 1, a.to, b.to, g)?;
    }
    Some(())
}

// The rule "first below second" of two branches of the cost table, built after the rule table's nodes; None where there is no room. Scratch is emptied first;
// where it is short, the call has memory of its own.
pub fn below(c: &[u32], t: &mut [u32], s: &mut [u32], a: Arm, b: Arm) -> Option<u32>
    requires { Comparable c.now t.old (branch a.to a.adds) (branch b.to b.adds) }
    ensures { Result t.old t.new 0
        (is_below (meaning (nodes c.now) (branch a.to a.adds)) (meaning (nodes c.now) (branch b.to b.adds))) result }
{
    let d = difference_word(b.adds, a.adds);
    if s.len() < 6144 {
        return rest_result(c, t, &mut [0; 6144], 0, a.to, b.to, d);
    }
    clear(s);
    rest_result(c, t, s, 0, a.to, b.to, d)
}
