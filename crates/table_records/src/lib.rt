// Adding, taking away and finding records of a table of any kind.
#![tactic(auto)]

ghost use Rattle.std.specs.Prelude.{◌≡◌, ◌+◌, ◌*◌, ◌-◌, ◌≤◌, ◌<◌, length};
ghost use Rattle.settings.specs.Tells.{Tells};
ghost use Rattle.table_records.specs.Laid.{Laid};
ghost use Rattle.table_records.specs.Changes.{Pushed, Popped, Rolled, RecordIs, Finds};
ghost use Rattle.promises.specs.Words.{count, capacity};

use table_words::{CHAINS, RECORDS, bucket_word, count_word, hash_at, hash_of, record_word};

// Adds a record of feature k with the list as its body and two spare words, at the head of its chain; the answer is its index.
pub fn push(t: &mut [u32], k: usize, list: [u32; 12], x: u32, y: u32) -> usize
    requires { (Laid t.old) × (count t.old < capacity t.old) × (k < 16) }
    ensures { (result ≡ count t.old) × (Pushed t.old t.new k list x y) }
{
    let n = count_word(t);
    let i = n as usize;
    let h = hash_of(k, list);
    let next = bucket_word(t, h);
    let base = RECORDS + 16 * i;
    t[base] = k as u32;
    t[base + 1..base + 13].copy_from_slice(&list);
    t[base + 13] = next;
    t[base + 14] = x;
    t[base + 15] = y;
    t[CHAINS + h] = n + 1;
    t[19] = n + 1;
    i
}

// Takes the last record away, and its chain back to the one before it.
pub fn pop(t: &mut [u32])
    requires { (Laid t.old) × (0 < count t.old) }
    ensures { Popped t.old t.new (count t.old - 1) }
{
    let i = count_word(t) as usize - 1;
    let h = hash_at(t, i);
    t[CHAINS + h] = record_word(t, i, 13);
    let base = RECORDS + 16 * i;
    t[base..base + 16].fill(0);
    t[19] = i as u32;
}

// Takes the records from n on away.
pub fn roll_back(t: &mut [u32], n: usize)
    requires { (Laid t.old) × (n ≤ count t.old) }
    ensures { Rolled t.old t.new n }
{
    for _ in (n..count_word(t) as usize).rev() {
        pop(t);
    }
}

// Whether record i has the feature k and the list as its body: word by word, since most records that are not it differ early (`==` of slices is slower there).
pub fn record_is(t: &[u32], i: usize, k: usize, list: [u32; 12]) -> bool
    requires { (8192 + 16 * i + 16 ≤ length t.now) × (i < 8192) }
    ensures { Tells result (RecordIs t.now i k list) }
{
    if record_word(t, i, 0) as usize != k {
        return false;
    }
    for (v, x) in list.iter().enumerate() {
        if record_word(t, i, 1 + v) != *x {
            return false;
        }
    }
    true
}

// The index of the record of feature k with the list as its body, searched along its chain.
pub fn find_record(t: &[u32], k: usize, list: [u32; 12]) -> Option<usize>
    requires { (Laid t.now) × (k < 4294967296) }
    ensures { Finds t.now k list result }
{
    let mut c = bucket_word(t, hash_of(k, list)) as usize;
    while 0 < c {
        let i = c - 1;
        if record_is(t, i, k, list) {
            return Some(i);
        }
        c = record_word(t, i, 13) as usize;
    }
    None
}
