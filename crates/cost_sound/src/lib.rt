// The soundness test of a cost table. It reads any slice, and writes nothing.
// It stands beside rule_sound: a rule's branch is a word, a cost's a target and an added integer, so what they do with one differs.
#![tactic(auto)]

mod range; // range.rt: the pairs kept for the nodes, and the costs in their range

ghost use Rattle.std.specs.Prelude.{◌≤◌, ◌<◌};
ghost use Rattle.settings.specs.Tells.{Tells};
ghost use Rattle.cost_sound.specs.Paired.{Shaped};
ghost use Rattle.promises.specs.Words.{features, count, feature, body};
ghost use Rattle.promises.specs.CostWords.{Padded};
ghost use Rattle.promises.specs.Sound.{Header};
ghost use Rattle.promises.specs.CostSound.{CostAdds as Adds, CostAlike as Alike, CostNodeOk as NodeOk, CostNodesOk as Nodes, CostSound as Sound};

use cost_words::{FIRST, ZERO, adds_at, goes_to};
use range::{pairs_ok, places_ok};
use table_checks::{chains_ok, header_ok, lower, order_ok, roots_ok};
use table_words::{count_word, features_word, record_word, size_word};

// Whether branch 0 of node i adds 0, and each adds an integer within ±2,000,000,000.
fn adds_ok(t: &[u32], i: usize) -> bool
    requires { (Header 2 t.now) × (i < count t.now) × (feature t.now i < features t.now) }
    ensures { Tells result (Adds t.now i) }
{
    if adds_at(t, i, 0) != ZERO {
        return false;
    }
    let s = size_word(t, record_word(t, i, 0) as usize) as usize;
    for v in 0..s {
        let a = adds_at(t, i, v);
        if a < 147483648 || 4147483648 < a {
            return false;
        }
    }
    true
}

// Whether the branches of node i all go to one target and add 0.
fn alike(t: &[u32], i: usize) -> bool
    requires { (Header 2 t.now) × (i < count t.now) × (feature t.now i < features t.now) }
    ensures { Tells result (Alike t.now i) }
{
    let s = size_word(t, record_word(t, i, 0) as usize) as usize;
    let first = goes_to(t, i, 0);
    for v in 0..s {
        if goes_to(t, i, v) != first || adds_at(t, i, v) != ZERO {
            return false;
        }
    }
    true
}

// Whether the body of node i has 0 only past s values.
fn padded_ok(t: &[u32], i: usize, s: usize) -> bool
    requires { (Header 2 t.now) × (i < count t.now) × (s ≤ 8) }
    ensures { Tells result (Padded s (body t.now i)) }
{
    for v in s..8 {
        if goes_to(t, i, v) != 0 || adds_at(t, i, v) != 0 {
            return false;
        }
    }
    true
}

// Whether node i is one, but for twins and its chain.
fn node_ok(t: &[u32], i: usize) -> bool
    requires { (Header 2 t.now) × (i < count t.now) }
    ensures { Tells result (NodeOk t.now i) }
{
    let k = record_word(t, i, 0);
    k < features_word(t)
        && lower(t, FIRST, i)
        && adds_ok(t, i)
        && !alike(t, i)
        && padded_ok(t, i, size_word(t, k as usize) as usize)
}

// Whether each node in use is one.
fn nodes_ok(t: &[u32]) -> bool
    requires { Header 2 t.now }
    ensures { Tells result (Nodes t.now) }
{
    let n = count_word(t) as usize;
    for i in 0..n {
        if !node_ok(t, i) {
            return false;
        }
    }
    true
}

// Whether the words are a cost table, but for its pairs and its range.
fn shaped_ok(t: &[u32]) -> bool
    ensures { Tells result (Shaped t.now) }
{
    header_ok(t, 2)
        && nodes_ok(t)
        && chains_ok(t)
        && roots_ok(t, FIRST, 16)
        && order_ok(t, FIRST, 16)
}

// Whether the words are a sound cost table. It reads any slice.
pub fn sound(t: &[u32]) -> bool
    ensures { Tells result (Sound t.now) }
{
    shaped_ok(t) && pairs_ok(t) && places_ok(t)
}
