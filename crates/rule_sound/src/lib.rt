// The soundness test of a rule table. It reads any slice, and writes nothing.
#![tactic(auto)]

ghost use Rattle.std.specs.Prelude.{◌+◌, ◌*◌, ◌≤◌, ◌<◌};
ghost use Rattle.settings.specs.Tells.{Tells};
ghost use Rattle.promises.specs.Words.{features, count, feature, Zeros};
ghost use Rattle.promises.specs.Sound.{Header};
ghost use Rattle.promises.specs.RuleSound.{RuleAlike as Alike, RuleNodeOk as NodeOk, RuleNodesOk as Nodes, RuleSound as Sound};

use rule_words::NUMBERS;
use table_checks::{chains_ok, header_ok, lower, order_ok, roots_ok, zeros};
use table_words::{RECORDS, count_word, features_word, record_word, width};

// Whether the branches of node i are all equal.
fn alike(t: &[u32], i: usize) -> bool
    requires { (Header 1 t.now) × (i < count t.now) × (feature t.now i < features t.now) }
    ensures { Tells result (Alike t.now i) }
{
    let first = record_word(t, i, 1);
    for v in 1..width(t, i) {
        if record_word(t, i, 1 + v) != first {
            return false;
        }
    }
    true
}

// Whether the body of node i has 0 only past s branches, and so have its spare words.
fn rest_zero(t: &[u32], i: usize, s: usize) -> bool
    requires { (Header 1 t.now) × (i < count t.now) × (s ≤ 8) }
    ensures { Tells result ((Zeros t.now (8192 + 16 * i + 1 + s) (8192 + 16 * i + 13)) × (Zeros t.now (8192 + 16 * i + 14) (8192 + 16 * i + 16))) }
{
    let base = RECORDS + 16 * i;
    zeros(t, base + 1 + s, base + 13) && zeros(t, base + 14, base + 16)
}

// Whether node i is one, but for twins and its chain.
fn node_ok(t: &[u32], i: usize) -> bool
    requires { (Header 1 t.now) × (i < count t.now) }
    ensures { Tells result (NodeOk t.now i) }
{
    record_word(t, i, 0) < features_word(t)
        && lower(t, NUMBERS, i)
        && !alike(t, i)
        && rest_zero(t, i, width(t, i))
}

// Whether each node in use is one.
fn nodes_ok(t: &[u32]) -> bool
    requires { Header 1 t.now }
    ensures { Tells result (Nodes t.now) }
{
    for i in 0..count_word(t) as usize {
        if !node_ok(t, i) {
            return false;
        }
    }
    true
}

// Whether the words are a sound rule table. It reads any slice.
pub fn sound(t: &[u32]) -> bool
    ensures { Tells result (Sound t.now) }
{
    header_ok(t, 1)
        && nodes_ok(t)
        && chains_ok(t)
        && roots_ok(t, NUMBERS, 32)
        && order_ok(t, NUMBERS, 32)
}
