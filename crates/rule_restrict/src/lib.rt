// Restrict on a rule table: a feature held at a value. The walk remembers the result of each node in the far records.
#![tactic(auto)]

ghost use Rattle.std.specs.Prelude.{◌≡◌, ◌+◌, ◌≤◌, ◌<◌, MatchOption, set};
ghost use Rattle.rule_nodes.specs.Nodes.{Result};
ghost use Rattle.table_notes.specs.Plain.{Roomy, plain};
ghost use Rattle.rule_restrict.specs.Notes.{note, note_at, Only};
ghost use Rattle.rule_restrict.specs.Restrict.{Holding, restr, Walks, Walked};
ghost use Rattle.promises.specs.Words.{capacity, count};

use rule_nodes::{child_of, make, top_of};
use rule_words::NUMBERS;
use table_words::{RECORDS, capacity_word, count_word, size_word};

// The branch that the note of node i tells, if it has one.
fn note_of(t: &[u32], i: usize) -> Option<u32>
    requires { (Roomy t.now) × (i < capacity t.now) }
    ensures { MatchOption result (note t.now i ≡ 0) (λ r. note t.now i ≡ r + 1) }
{
    let far = capacity_word(t) as usize + i;
    t[RECORDS + 16 * far].checked_sub(1)
}

// Makes c the note of node i.
fn put_note(t: &mut [u32], i: usize, c: u32)
    requires { (Roomy t.old) × (i < capacity t.old) }
    ensures { t.new ≡ set t.old (note_at t.old i) c }
{
    let far = capacity_word(t) as usize + i;
    t[RECORDS + 16 * far] = c;
}

// Takes the notes of all nodes away.
fn clear_notes(t: &mut [u32])
    requires { (Roomy t.old) × (count t.old ≤ capacity t.old) × (Only t.old 0 (count t.old)) }
    ensures { t.new ≡ plain t.old }
{
    for i in 0..count_word(t) as usize {
        put_note(t, i, 0);
    }
}

// The branch b with feature f held at x. What tests nothing below f goes to its branch; any other node is walked once, and its result noted.
fn restrict_walk(t: &mut [u32], b: u32, f: usize, x: usize) -> Option<u32>
    requires { Walks t.old b f x }
    ensures { Walked t.old t.new b f x result }
{
    let k = top_of(t, b);
    if f <= k {
        return Some(child_of(t, f, b, x));
    }
    let i = (b - NUMBERS) as usize;
    if let Some(r) = note_of(t, i) {
        return Some(r);
    }
    let mut list = [0u32; 12];
    for v in 0..size_word(t, k) as usize {
        let c = child_of(t, k, b, v);
        list[v] = restrict_walk(t, c, f, x)?;
    }
    let r = make(t, k, list)?;
    put_note(t, i, r + 1);
    Some(r)
}

// The branch b with feature f held at x; nodes are added where the table has none, and the far records are 0 again.
pub fn held(t: &mut [u32], b: u32, f: usize, x: usize) -> Option<u32>
    requires { Holding t.old b f x }
    ensures { Result t.old t.new 0 (restr t.old 0 b f x) result }
{
    let r = restrict_walk(t, b, f, x);
    clear_notes(t);
    r
}
