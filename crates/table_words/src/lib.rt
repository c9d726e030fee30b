// Reading the words of a table of any kind: header, records, hashes.
#![tactic(auto)]

mod header;

ghost use Rattle.std.specs.Prelude.{◌≡◌, ℕ, ◌+◌, ◌*◌, ◌%◌, ◌≤◌, ◌<◌, length, get_or};
ghost use Rattle.table_words.specs.Words.{listed, way_of};
ghost use Rattle.promises.specs.Words.{word, size, feature, body, hash_of, hash_at};
ghost use Rattle.promises.specs.CostWords.{half};

pub use header::{bucket_word, capacity_word, count_word, features_word, head_word, size_word};

// A table has at most so many nodes.
pub const NODES: usize = 4096;

// Where the chain heads begin, and where the records begin.
pub const CHAINS: usize = 4096;

pub const RECORDS: usize = 8192;

// A half word is below this.
pub const HALF: u32 = 65536;

// Where branch words from 1 on say nodes, two lie in a word.
pub const HALVES: u32 = 1;

// The half of a word that is for value v.
pub fn half_of(x: u32, v: usize) -> u32
    ensures { result ≡ half x v }
{
    if v % 2 == 0 { x % HALF } else { x / HALF }
}

// The word with another half for value v.
pub fn with_half(x: u32, v: usize, r: u32) -> u32
    requires { r < 65536 }
    ensures { (half result v ≡ r) × ((u : ℕ) → (u % 2 ≡ v % 2 → ⊥) → half result u ≡ half x u) }
{
    if v % 2 == 0 {
        x / HALF * HALF + r
    } else {
        x % HALF + HALF * r
    }
}

// Word j of record i. The far records follow the near ones: far record i is record capacity + i.
pub fn record_word(t: &[u32], i: usize, j: usize) -> u32
    requires { (8192 + 16 * i + j < length t.now) × (i < 8192) × (j < 16) }
    ensures { result ≡ word t.now i j }
{
    t[RECORDS + 16 * i + j]
}

// The word of branch v of record i, in a kind where branch words below `first` end and the others say nodes.
pub fn way_word(t: &[u32], first: u32, i: usize, v: usize) -> u32
    requires { (8192 + 16 * i + 16 ≤ length t.now) × (i < 8192) × (v < 8) }
    ensures { result ≡ way_of first (body t.now i) v }
{
    if first == HALVES {
        half_of(record_word(t, i, 1 + v / 2), v)
    } else {
        record_word(t, i, 1 + v)
    }
}

// How many branches record i has.
pub fn width(t: &[u32], i: usize) -> usize
    requires { (8192 + 16 * i + 16 ≤ length t.now) × (i < 8192) × (feature t.now i < 16) }
    ensures { result ≡ size t.now (feature t.now i) }
{
    size_word(t, record_word(t, i, 0) as usize) as usize
}

// The body of record i.
pub fn body_of(t: &[u32], i: usize) -> [u32; 12]
    requires { (8192 + 16 * i + 16 ≤ length t.now) × (i < 8192) }
    ensures { (v : ℕ) → v < 12 → get_or result v 0 ≡ body t.now i v }
{
    let from = RECORDS + 16 * i + 1;
    let mut list = [0; 12];
    list.copy_from_slice(&t[from..from + 12]);
    list
}

// The hash of a record of feature k with the list as its body.
pub fn hash_of(k: usize, list: [u32; 12]) -> usize
    requires { k < 4294967296 }
    ensures { (result ≡ hash_of k (listed list)) × (result < 4096) }
{
    let mut h = k;
    for x in &list {
        h = (h * 2654435761 + *x as usize) % 4294967296;
    }
    h / 1048576
}

// The hash of record i.
pub fn hash_at(t: &[u32], i: usize) -> usize
    requires { (8192 + 16 * i + 16 ≤ length t.now) × (i < 8192) }
    ensures { (result ≡ hash_at t.now i) × (result < 4096) }
{
    hash_of(record_word(t, i, 0) as usize, body_of(t, i))
}
