// The nodes of a rule table: the unique search, the making of a node, and steps down a diagram.
#![tactic(auto)]

ghost use Rattle.std.specs.Prelude.{◌≡◌, ◌+◌, ◌≤◌, ◌<◌};
ghost use Rattle.theory.specs.Diagrams.{next};
ghost use Rattle.table_records.specs.Laid.{Laid};
ghost use Rattle.settings.specs.Tells.{Tells};
ghost use Rattle.rule_nodes.specs.Nodes.{Holds, Listed, AllSame, Finds, Makes, top, Place};
ghost use Rattle.promises.specs.Words.{features, size, count};
ghost use Rattle.promises.specs.RuleWords.{decode, rule_node_list as nodes};

use rule_words::{Branch, NUMBERS, branch_at, branch_word};
use table_records::{find_record, push};
use table_words::{capacity_word, count_word, features_word, record_word, size_word};

// Whether the first m of the list are all equal to the first.
fn all_same(list: [u32; 12], m: usize) -> bool
    requires { m ≤ 12 }
    ensures { Tells result (AllSame m list) }
{
    list[..m].iter().all(|word| *word == list[0])
}

// The unique search: the branch that has the list's branches at feature k. Equal branches need no node.
pub fn find(t: &[u32], k: usize, list: [u32; 12]) -> Option<Branch>
    requires { (Holds t.now) × (k < features t.now) × (Listed t.now k list) }
    ensures { Finds t.now k list result }
{
    if all_same(list, size_word(t, k) as usize) {
        return Some(branch_at(list[0]));
    }
    let i = find_record(t, k, list)?;
    Some(Branch::Node(i as u32))
}

// The branch that has the list's branches at feature k; its node is made where there is none.
pub fn make(t: &mut [u32], k: usize, list: [u32; 12]) -> Option<u32>
    requires { (Holds t.old) × (k < features t.old) × (Listed t.old k list) }
    ensures { Makes t.old t.new k list result }
{
    let Some(b) = find(t, k, list) else {
        if count_word(t) < capacity_word(t) {
            let i = push(t, k, list, 0, 0) as u32;
            return Some(branch_word(Branch::Node(i)));
        }
        return None;
    };
    Some(branch_word(b))
}

// The feature at the top of a branch; of a phrase, the number of features.
pub fn top_of(t: &[u32], b: u32) -> usize
    requires { (Laid t.now) × (b < 65536 + count t.now) }
    ensures { result ≡ top t.now b }
{
    if b < NUMBERS {
        features_word(t) as usize
    } else {
        record_word(t, (b - NUMBERS) as usize, 0) as usize
    }
}

// The branch for value v of feature k: a branch that does not test the feature waits.
pub fn child_of(t: &[u32], k: usize, b: u32, v: usize) -> u32
    requires { (Place t.now k b) × (k < features t.now) × (v < size t.now k) }
    ensures { decode result ≡ next (nodes t.now) k (decode b) v }
{
    if top_of(t, b) == k {
        record_word(t, (b - NUMBERS) as usize, 1 + v)
    } else {
        b
    }
}
