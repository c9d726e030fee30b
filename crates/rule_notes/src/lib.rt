// A rule table while a walk works on it, told of the words without its notes: steps down a diagram, and the making of a node.
#![tactic(auto)]

ghost use Rattle.std.specs.Prelude.{◌≡◌, ◌+◌, ◌<◌};
ghost use Rattle.theory.specs.Diagrams.{next};
ghost use Rattle.table_records.specs.Laid.{Laid};
ghost use Rattle.table_notes.specs.Far.{Aside};
ghost use Rattle.table_notes.specs.Plain.{Roomy, plain};
ghost use Rattle.rule_nodes.specs.Nodes.{Holds, Listed, Makes, top, Place};
ghost use Rattle.promises.specs.Words.{features, size, count};
ghost use Rattle.promises.specs.RuleWords.{decode, rule_node_list as nodes};

use rule_nodes::{child_of, make, top_of};

// The feature at the top of a branch; of a phrase, the number of features.
pub fn top_in(t: &[u32], b: u32) -> usize
    requires { (Laid (plain t.now)) × (b < 65536 + count (plain t.now)) }
    ensures { result ≡ top (plain t.now) b }
{
    top_of(t, b)
}

// The branch of a branch for value v of feature k.
pub fn child_in(t: &[u32], k: usize, b: u32, v: usize) -> u32
    requires { (Place (plain t.now) k b) × (k < features (plain t.now)) × (v < size (plain t.now) k) }
    ensures { decode result ≡ next (nodes (plain t.now)) k (decode b) v }
{
    child_of(t, k, b, v)
}

// The branch that has these branches at feature k; what is remembered stays. A call alone, as those above: the proofs of the walks cite its contract of the words without the notes.
pub fn make_in(t: &mut [u32], k: usize, list: [u32; 12]) -> Option<u32>
    requires { (Roomy t.old) × (Holds (plain t.old)) × (k < features (plain t.old)) × (Listed (plain t.old) k list) }
    ensures { (Makes (plain t.old) (plain t.new) k list result) × (Aside t.old t.new) }
{
    make(t, k, list)
}
