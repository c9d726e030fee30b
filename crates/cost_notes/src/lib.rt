// A cost table while a walk works on it, told of the words without its notes: steps down a diagram, the making of a node, and what the walk remembers.
#![tactic(auto)]

mod operators; // operators.rt: the numbers of the operators

ghost use Rattle.std.specs.Prelude.{◌≡◌, [], ◌∷◌, ℕ, ◌≤◌, ◌<◌};
ghost use Rattle.theory_costs.specs.Relative.{branch_at};
ghost use Rattle.table_records.specs.Laid.{Laid};
ghost use Rattle.table_notes.specs.Far.{memory, Aside, Windowed};
ghost use Rattle.table_notes.specs.Plain.{Roomy, plain};
ghost use Rattle.table_memory.specs.Memory.{Recalls, Stored};
ghost use Rattle.cost_words.specs.Sides.{Keeps};
ghost use Rattle.cost_nodes.specs.Nodes.{Holds, Armed, Makes, top, Place};
ghost use Rattle.promises.specs.Words.{features, size, count};
ghost use Rattle.promises.specs.CostWords.{target, cost_branch as branch, cost_node_list as nodes};

use cost_nodes::{Arm, arm_at, make, top_of};
use cost_words::{Span, kept_span};
pub use operators::Operation;

// The lowest feature that one of two targets tests.
pub fn lowest(t: &[u32], x: u32, y: u32) -> usize
    requires { (Laid (plain t.now)) × (x ≤ count (plain t.now)) × (y ≤ count (plain t.now)) }
    ensures { (result ≤ top (plain t.now) x) × (result ≤ top (plain t.now) y) × ((z : ℕ) → z ≤ top (plain t.now) x → z ≤ top (plain t.now) y → z ≤ result) }
{
    top_of(t, x).min(top_of(t, y))
}

// The branch of a target for value v of feature k. Here and below a call alone: its contract is of the words without the notes, which the proofs of the walks cite.
pub fn arm_in(t: &[u32], k: usize, x: u32, v: usize) -> Arm
    requires { (Place (plain t.now) k x) × (k < features (plain t.now)) × (v < size (plain t.now) k) }
    ensures { branch result.to result.adds ≡ branch_at (nodes (plain t.now)) k (target x) v }
{
    arm_at(t, k, x, v)
}

// What the table keeps for a target.
pub fn kept_in(t: &[u32], x: u32) -> Span
    requires { (Laid (plain t.now)) × (x ≤ count (plain t.now)) }
    ensures { Keeps (plain t.now) x result.low result.high }
{
    kept_span(t, x)
}

// The branch that has these branches at feature k, or None where its node has no room; what is remembered stays.
pub fn make_in(t: &mut [u32], k: usize, arms: &[Arm; 8]) -> Option<Arm>
    requires { (Roomy t.old) × (Holds (plain t.old)) × (k < features (plain t.old)) × (Armed (plain t.old) k arms.now) }
    ensures { (Makes (plain t.old) (plain t.new) k arms.now result) × (Aside t.old t.new) }
{
    make(t, k, arms)
}

// What is remembered under a tag for two targets and their difference. Keys of four words are lent here alone, so that they have one length for the compiler.
pub fn recall_in(
    t: &[u32],
    s: &[u32],
    o: Operation,
    tag: u32,
    x: u32,
    y: u32,
    d: u32,
) -> Option<(u32, u32)>
    requires { Windowed t.now }
    ensures { Recalls (memory t.now s.now) (tag ∷ x ∷ y ∷ d ∷ []) result }
{
    let key = [tag, x, y, d];
    table_memory::recall_in(t, s, o as u32, &key)
}

// Remembers the result's words z and e.
pub fn remember_in(
    t: &mut [u32],
    s: &mut [u32],
    o: Operation,
    tag: u32,
    x: u32,
    y: u32,
    d: u32,
    z: u32,
    e: u32,
)
    requires { (Windowed t.old) × (0 < tag) }
    ensures { (plain t.new ≡ plain t.old) × (Stored (memory t.old s.old) (memory t.new s.new) (tag ∷ x ∷ y ∷ d ∷ []) z e)
        × (Windowed t.new) }
{
    let key = [tag, x, y, d];
    table_memory::remember_in(t, s, o as u32, &key, z, e);
}
