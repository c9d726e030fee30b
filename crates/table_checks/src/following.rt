// The part of the test that follows branches, for every kind: where they may go, and the walk from the roots. `first` tells the kind: branch words
// below it end, the others say nodes.
ghost use Rattle.std.specs.Prelude.{◌≤◌, ◌<◌};
ghost use Rattle.settings.specs.Tells.{Tells};
ghost use Rattle.table_checks.specs.Walk.{kind_of, Lower, Rooted, Formed, InOrder, Visits, VisitsAll};
ghost use Rattle.promises.specs.Words.{features, count, feature};
ghost use Rattle.promises.specs.Sound.{Header, Sits};

use crate::sits;
use table_words::{count_word, head_word, record_word, way_word, width};

// Whether each branch of node i ends or goes to an earlier node of a higher feature.
pub fn lower(t: &[u32], first: u32, i: usize) -> bool
    requires { (Header (kind_of first) t.now) × (i < count t.now) × (feature t.now i < features t.now) }
    ensures { Tells result (Lower first t.now i) }
{
    let k = record_word(t, i, 0) as usize;
    for v in 0..width(t, i) {
        if !sits(t, first, i, k + 1, way_word(t, first, i, v)) {
            return false;
        }
    }
    true
}

// Whether each of the first n roots ends or goes to a node in use.
pub fn roots_ok(t: &[u32], first: u32, n: usize) -> bool
    requires { (Header (kind_of first) t.now) × (n ≤ 32) }
    ensures { Tells result (Rooted first n t.now) }
{
    let m = count_word(t) as usize;
    for p in 0..n {
        if !sits(t, first, m, 0, head_word(t, 32 + p)) {
            return false;
        }
    }
    true
}

// The walk from the branch word b, the nodes below c done: how many are done after it, or None where one is not met in its turn.
// It calls itself over `visit_list`, each time at a higher feature: at most as deep as there are features.
#[cycle(visit_visit_list)]
fn visit(t: &[u32], first: u32, b: u32, c: usize) -> Option<usize>
    requires { (Formed first t.now) × (Sits first t.now (count t.now) 0 b) × (c ≤ count t.now) }
    ensures { Visits first t.now b c result }
{
    if b < first {
        return Some(c);
    }
    let i = (b - first) as usize;
    if i < c {
        return Some(c);
    }
    let d = visit_list(t, first, i, c)?;
    if d == i { Some(i + 1) } else { None }
}

// The same over the branches of node i in turn; one that ends or whose node is done needs no call. A lost walk stops at once, so each node's
// branches are walked once.
#[cycle(visit_visit_list)]
fn visit_list(t: &[u32], first: u32, i: usize, c: usize) -> Option<usize>
    requires { (Formed first t.now) × (i < count t.now) × (c ≤ count t.now) }
    ensures { VisitsAll first t.now i c result }
{
    let mut d = c;
    for v in 0..width(t, i) {
        let b = way_word(t, first, i, v);
        if first as usize + d <= b as usize {
            d = visit(t, first, b, d)?;
        }
    }
    Some(d)
}

// Whether the walk from the first n roots in turn meets every node, each in its turn.
pub fn order_ok(t: &[u32], first: u32, n: usize) -> bool
    requires { (Formed first t.now) × (Rooted first n t.now) × (n ≤ 32) }
    ensures { Tells result (InOrder first n t.now) }
{
    let mut d = 0;
    for p in 0..n {
        let Some(e) = visit(t, first, head_word(t, 32 + p), d) else {
            return false;
        };
        d = e;
    }
    d == count_word(t) as usize
}
