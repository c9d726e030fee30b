// The nodes of a cost table: the unique search, the making of a node, the branches of places, and steps down a diagram.
// It stands beside rule_nodes: a rule's branch is a word, a cost's a target and an added integer, so what they do with one differs.
#![tactic(auto)]

ghost use Rattle.std.specs.Prelude.{◌≡◌, ℕ, ◌+◌, ◌≤◌, ◌<◌, ◌-ℤ◌, length};
ghost use Rattle.theory_costs.specs.Relative.{branch_at};
ghost use Rattle.table_records.specs.Laid.{Laid};
ghost use Rattle.settings.specs.Tells.{Tells};
ghost use Rattle.cost_words.specs.Words.{tos, adding};
ghost use Rattle.cost_nodes.specs.Nodes.{Holds, Levelled, AllSame, Finds, Armed, Lowered, Makes, top, Place};
ghost use Rattle.promises.specs.Integers.{Fit, int};
ghost use Rattle.promises.specs.Range.{add_most};
ghost use Rattle.promises.specs.Words.{features, size, count};
ghost use Rattle.promises.specs.CostWords.{target, cost_branch as branch, cost_node_list as nodes, root_at};

pub use cost_words::Arm;
use cost_words::{
    Target, ZERO, adds_at, base_word, difference_word, goes_to, packed_body, root_word, sides_of,
    target_at, target_word,
};
use table_records::{find_record, push};
use table_words::{capacity_word, count_word, features_word, half_of, record_word, size_word};

// Whether the first m targets and added words of a body are all equal to the first.
fn all_same(list: &[u32; 12], m: usize) -> bool
    requires { m ≤ 8 }
    ensures { Tells result (AllSame m list.now) }
{
    let goes = half_of(list[0], 0);
    let adds = list[4];
    for v in 0..m {
        if half_of(list[v / 2], v) != goes || list[4 + v] != adds {
            return false;
        }
    }
    true
}

// The unique search: where the branch goes that has the body's branches at feature k, the first of which adds nothing; None where its node must be made.
// Equal branches need no node.
pub fn find(t: &[u32], k: usize, list: &[u32; 12]) -> Option<Target>
    requires { (Holds t.now) × (k < features t.now) × (Levelled t.now k list.now) }
    ensures { Finds t.now k list.now result }
{
    if all_same(list, size_word(t, k) as usize) {
        return Some(target_at(half_of(list[0], 0)));
    }
    let i = find_record(t, k, *list)?;
    Some(Target::Node(i as u32))
}

// The first m branches less what the first of them adds.
fn lowered(arms: &[Arm; 8], m: usize) -> [Arm; 8]
    requires { (m ≤ 8) × ((v : ℕ) → v < m → Fit add_most (int (adding arms.now v) -ℤ int (adding arms.now 0))) × ((v : ℕ) → m ≤ v → v < 8 → tos arms.now v ≡ 0) }
    ensures { Lowered m arms.now result }
{
    let mut list = [Arm { to: 0, adds: 0 }; 8];
    for v in 0..m {
        list[v] = Arm {
            to: arms[v].to,
            adds: difference_word(arms[v].adds, arms[0].adds),
        };
    }
    list
}

// The branch that has these branches at feature k; its node is made where there is none, and None says that it has no room.
// What the first branch adds is added above the node.
pub fn make(t: &mut [u32], k: usize, arms: &[Arm; 8]) -> Option<Arm>
    requires { (Holds t.old) × (k < features t.old) × (Armed t.old k arms.now) }
    ensures { Makes t.old t.new k arms.now result }
{
    let m = size_word(t, k) as usize;
    let list = packed_body(&lowered(arms, m));
    let adds = arms[0].adds;
    let Some(x) = find(t, k, &list) else {
        if count_word(t) < capacity_word(t) {
            let pair = sides_of(t, list, m)?;
            let i = push(t, k, list, pair.low, pair.high) as u32;
            let to = target_word(Target::Node(i));
            return Some(Arm { to, adds });
        }
        return None;
    };
    let to = target_word(x);
    Some(Arm { to, adds })
}

// The branch of a place: its root and its base.
pub fn arm_of(t: &[u32], place: usize) -> Arm
    requires { (64 ≤ length t.now) × (place < 16) }
    ensures { branch result.to result.adds ≡ root_at t.now place }
{
    Arm {
        to: root_word(t, place),
        adds: base_word(t, place),
    }
}

// The feature at the top of a target; of the end, the number of features.
pub fn top_of(t: &[u32], x: u32) -> usize
    requires { (Laid t.now) × (x ≤ count t.now) }
    ensures { result ≡ top t.now x }
{
    match target_at(x) {
        Target::End => features_word(t) as usize,
        Target::Node(i) => record_word(t, i as usize, 0) as usize,
    }
}

// The branch of a target for value v of feature k: a target that does not test the feature waits.
pub fn arm_at(t: &[u32], k: usize, x: u32, v: usize) -> Arm
    requires { (Place t.now k x) × (k < features t.now) × (v < size t.now k) }
    ensures { branch result.to result.adds ≡ branch_at (nodes t.now) k (target x) v }
{
    if top_of(t, x) == k {
        // What tests a feature is a node: a match of the target again would be no plainer.
        let i = x as usize - 1;
        Arm {
            to: goes_to(t, i, v),
            adds: adds_at(t, i, v),
        }
    } else {
        Arm { to: x, adds: ZERO }
    }
}
