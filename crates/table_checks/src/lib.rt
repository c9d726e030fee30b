// The part of the soundness test that every kind of table shares: the header, the words that are 0, the chains, branch words.
#![tactic(auto)]

mod following; // following.rt: where branches may go, and the walk from the roots

ghost use Rattle.std.specs.Prelude.{◌≡◌, ◌+◌, ◌*◌, ◌≤◌, ◌<◌, length};
ghost use Rattle.settings.specs.Tells.{Tells};
ghost use Rattle.table_checks.specs.Header.{Front};
ghost use Rattle.table_checks.specs.Chained.{Framed, Headed};
ghost use Rattle.promises.specs.Words.{features, count, Zeros};
ghost use Rattle.promises.specs.Sound.{Sizes, Header, Same, Alone, Linked, Chained, Sits};

pub use following::{lower, order_ok, roots_ok};
use table_words::{
    CHAINS, NODES, RECORDS, bucket_word, capacity_word, count_word, features_word, hash_at,
    head_word, record_word,
};

// Whether the words from a to b are 0: they are exactly if no bit is set in any. No early exit, so that the loop can be vectorised.
pub fn zeros(t: &[u32], a: usize, b: usize) -> bool
    requires { b ≤ length t.now }
    ensures { Tells result (Zeros t.now a b) }
{
    let mut bits = 0;
    for j in a..b {
        bits |= t[j];
    }
    bits == 0
}

// Whether each size is from 2 to 8.
pub fn sizes_ok(t: &[u32]) -> bool
    requires { (19 ≤ length t.now) × (features t.now ≤ 16) }
    ensures { Tells result (Sizes t.now) }
{
    let end = 3 + features_word(t) as usize;
    t[3..end].iter().all(|s| 2 <= *s && *s <= 8)
}

// Whether the header's numbers are those of a table of this kind, which is its word 0.
pub fn front_ok(t: &[u32], kind: u32) -> bool
    ensures { Tells result (Front kind t.now) }
{
    if t.len() < RECORDS {
        return false;
    }
    let cap = capacity_word(t) as usize;
    let n = features_word(t);
    head_word(t, 0) == kind
        && 1 <= cap
        && cap <= NODES
        && RECORDS + 32 * cap <= t.len()
        && 1 <= n
        && n <= 16
        && count_word(t) as usize <= cap
}

// Whether the header, and the words that no root, chain or node uses, are those of a table of this kind. It reads any slice.
pub fn header_ok(t: &[u32], kind: u32) -> bool
    ensures { Tells result (Header kind t.now) }
{
    front_ok(t, kind)
        && sizes_ok(t)
        && zeros(t, 3 + features_word(t) as usize, 19)
        && zeros(t, 20, 32)
        && zeros(t, 64, CHAINS)
        && zeros(
            t,
            RECORDS + 16 * count_word(t) as usize,
            RECORDS + 32 * capacity_word(t) as usize,
        )
}

// Whether the word b ends, or says a node below m of feature k or higher; words from `first` on say nodes.
pub fn sits(t: &[u32], first: u32, m: usize, k: usize, b: u32) -> bool
    requires { (8192 + 16 * m ≤ length t.now) × (m ≤ 4096) }
    ensures { Tells result (Sits first t.now m k b) }
{
    if b < first {
        return true;
    }
    let j = (b - first) as usize;
    j < m && k <= record_word(t, j, 0) as usize
}

// Whether nodes i and j have the same feature and body: word by word, since nodes that are no twins differ early (`==` of slices is slower there).
pub fn same(t: &[u32], i: usize, j: usize) -> bool
    requires { (Framed t.now) × (i < count t.now) × (j < count t.now) }
    ensures { Tells result (Same t.now i j) }
{
    for v in 0..13 {
        if record_word(t, i, v) != record_word(t, j, v) {
            return false;
        }
    }
    true
}

// Whether node i has no twin before it: only nodes of its chain can be one.
pub fn alone(t: &[u32], i: usize) -> bool
    requires { (Framed t.now) × (i < count t.now) × (Linked t.now (i + 1)) }
    ensures { Tells result (Alone t.now i) }
{
    let mut c = record_word(t, i, 13) as usize;
    while 0 < c {
        let j = c - 1;
        if same(t, i, j) {
            return false;
        }
        c = record_word(t, j, 13) as usize;
    }
    true
}

// Whether the chain heads are those of the list: no bit of any differs. No early exit, so that the loop can be vectorised (`==` of slices is slower).
pub fn heads_ok(t: &[u32], last: &[u32]) -> bool
    requires { (8192 ≤ length t.now) × (length last.now ≡ 4096) }
    ensures { Tells result (Headed t.now last.now) }
{
    let mut bits = 0;
    for h in 0..4096 {
        bits |= bucket_word(t, h) ^ last[h];
    }
    bits == 0
}

// Whether the chains are those of the nodes, and no node has a twin.
pub fn chains_ok(t: &[u32]) -> bool
    requires { Framed t.now }
    ensures { Tells result (Chained t.now) }
{
    let mut last = [0u32; 4096];
    for i in 0..count_word(t) {
        let h = hash_at(t, i as usize);
        if record_word(t, i as usize, 13) != last[h] || !alone(t, i as usize) {
            return false;
        }
        last[h] = i + 1;
    }
    heads_ok(t, &last)
}
