// The engine: one walk serves apply, CASE and forget on a rule table, with remembered results in lent scratch words or in the far records.
#![tactic(auto)]

mod operands; // operands.rt: the operands at a feature
mod shortcuts; // shortcuts.rt: where nothing is walked

ghost use Rattle.std.specs.Prelude.{◌≡◌, ◌<◌, length, replicate};
ghost use Rattle.table_notes.specs.Plain.{Resting, plain};
ghost use Rattle.rule_nodes.specs.Nodes.{Result, Fills};
ghost use Rattle.rule_operators.specs.Operators.{number_of, forgotten_by};
ghost use Rattle.rule_engine.specs.Joint.{joint, Operands};
ghost use Rattle.rule_engine.specs.Memory.{Noted, Still};
ghost use Rattle.promises.specs.Words.{features};

use operands::{key_of, lowest, operands_at};
use rule_notes::make_in;
use rule_operators::{Operator, combine};
use shortcuts::shortcut;
use table_memory::{recall_in, remember_in};
use table_notes::{begin, clear, clear_far, clear_window};
use table_words::{capacity_word, features_word, size_word};

// The result of the operator on the operands from feature k on: its branch word, if there is room.
// No feature below the lowest that an operand tests is walked.
#[cycle(fill_branches_node_result_rest_result)]
fn rest_result(
    t: &mut [u32],
    s: &mut [u32],
    operator: &Operator,
    k: usize,
    ops: &[u32],
) -> Option<u32>
    requires { (Operands (plain t.old) (forgotten_by operator.now) (length ops.now) k ops.now)
        × (Noted t.old (number_of operator.now) (forgotten_by operator.now) (length ops.now) s.old) }
    ensures { (Result (plain t.old) (plain t.new) k (joint (plain t.old) (number_of operator.now) (forgotten_by operator.now) (length ops.now) k ops.now) result)
        × (Still t.new (number_of operator.now) (forgotten_by operator.now) (length ops.now) s.new result) }
{
    if shortcut(operator, ops[0], ops[1]) {
        return Some(combine(operator, ops));
    }
    let m = lowest(t, ops);
    if features_word(t) as usize <= m {
        return Some(combine(operator, ops));
    }
    node_result(t, s, operator, m, ops)
}

// The same at a feature of the table: where it is forgotten the result for the operands' branches, else what is remembered, or one node's result.
#[cycle(fill_branches_node_result_rest_result)]
fn node_result(
    t: &mut [u32],
    s: &mut [u32],
    operator: &Operator,
    k: usize,
    ops: &[u32],
) -> Option<u32>
    requires { (Operands (plain t.old) (forgotten_by operator.now) (length ops.now) k ops.now)
        × (Noted t.old (number_of operator.now) (forgotten_by operator.now) (length ops.now) s.old) × (k < features (plain t.old)) }
    ensures { (Result (plain t.old) (plain t.new) k (joint (plain t.old) (number_of operator.now) (forgotten_by operator.now) (length ops.now) k ops.now) result)
        × (Still t.new (number_of operator.now) (forgotten_by operator.now) (length ops.now) s.new result) }
{
    if operator.forgets(k) {
        let mut words = [0u32; 9];
        let next = &mut words[..ops.len()];
        operands_at(t, operator, k, ops, 0, next);
        return rest_result(t, s, operator, k + 1, next);
    }
    let mut words = [0u32; 10];
    let key = &mut words[..ops.len() + 1];
    key_of(k, ops, key);
    if let Some((x, _)) = recall_in(t, s, operator.number(), key) {
        return Some(x);
    }
    let mut list = [0u32; 12];
    fill_branches(t, s, operator, k, ops, &mut list)?;
    let x = make_in(t, k, list)?;
    remember_in(t, s, operator.number(), key, x, 0);
    Some(x)
}

// Lays the results for the values of feature k in turn into the list, if there is room for them.
#[cycle(fill_branches_node_result_rest_result)]
fn fill_branches(
    t: &mut [u32],
    s: &mut [u32],
    operator: &Operator,
    k: usize,
    ops: &[u32],
    list: &mut [u32; 12],
) -> Option<()>
    requires { (Operands (plain t.old) (forgotten_by operator.now) (length ops.now) k ops.now)
        × (Noted t.old (number_of operator.now) (forgotten_by operator.now) (length ops.now) s.old) × (k < features (plain t.old)) × (list.old ≡ replicate 12 0) }
    ensures { (Fills (plain t.old) (plain t.new) k (joint (plain t.old) (number_of operator.now) (forgotten_by operator.now) (length ops.now) k ops.now) result list.new)
        × (Still t.new (number_of operator.now) (forgotten_by operator.now) (length ops.now) s.new result) }
{
    let mut words = [0u32; 9];
    let next = &mut words[..ops.len()];
    for v in 0..size_word(t, k) as usize {
        operands_at(t, operator, k, ops, v, next);
        list[v] = rest_result(t, s, operator, k + 1, next)?;
    }
    Some(())
}

// The joint rule of the operands, built after the table's nodes, with remembered results in s or in the far records, which are 0 again.
fn join_in(t: &mut [u32], s: &mut [u32], operator: &Operator, ops: &[u32]) -> Option<u32>
    requires { (Operands t.old (forgotten_by operator.now) (length ops.now) 0 ops.now) × (Resting t.old) }
    ensures { Result t.old t.new 0 (joint t.old (number_of operator.now) (forgotten_by operator.now) (length ops.now) 0 ops.now) result }
{
    let lent = begin(t, s.len());
    clear(&mut s[..lent]);
    let Some(r) = rest_result(t, &mut s[..lent], operator, 0, ops) else {
        clear_far(t);
        return None;
    };
    clear_window(t);
    Some(r)
}

// The same; where the scratch and the far records are short, own words stand in for the scratch.
pub fn join(t: &mut [u32], s: &mut [u32], operator: &Operator, ops: &[u32]) -> Option<u32>
    requires { (Operands t.old (forgotten_by operator.now) (length ops.now) 0 ops.now) × (Resting t.old) }
    ensures { Result t.old t.new 0 (joint t.old (number_of operator.now) (forgotten_by operator.now) (length ops.now) 0 ops.now) result }
{
    if capacity_word(t) < 352 && s.len() < 5632 {
        let mut own = [0u32; 5632];
        return join_in(t, &mut own, operator, ops);
    }
    join_in(t, s, operator, ops)
}
