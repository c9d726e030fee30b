// The part of the collector that the tables of every kind share: copying a record, bringing the copies back, chaining anew.
#![tactic(auto)]

ghost use Rattle.std.specs.Prelude.{◌≡◌, ◌-◌};
ghost use Rattle.table_sweep.specs.Marks.{done};
ghost use Rattle.table_sweep.specs.Sweeping.{Linked, Chain, Cut, Unlinked, Spare, Put, Full, Brought, Bare, Relinked};
ghost use Rattle.promises.specs.Words.{hash_at, last_of};

use table_words::{CHAINS, RECORDS, capacity_word, count_word, hash_at, head_word, record_word};

// 1 + the last node below a on the chain whose head is word h, 0 where there is none, as a link says it, to be laid down as it is: chains go down.
fn last_below(t: &[u32], h: usize, a: usize) -> u32
    requires { Chain t.now h a }
    ensures { result ≡ last_of (hash_at t.now) (h - 4096) a }
{
    if a == 0 {
        return 0;
    }
    let mut c = head_word(t, h);
    while a < c as usize {
        c = record_word(t, c as usize - 1, 13);
    }
    c
}

// Lets each chain begin below a.
fn cut_heads(t: &mut [u32], a: usize)
    requires { Linked t.old a }
    ensures { Cut t.old t.new a }
{
    for h in CHAINS..RECORDS {
        t[h] = last_below(t, h, a);
    }
}

// Takes the nodes from a on out of the chains, whose links become marks, and notes that the first a stay.
pub fn unlink(t: &mut [u32], a: usize)
    requires { Linked t.old a }
    ensures { Unlinked t.old t.new a }
{
    cut_heads(t, a);
    for i in a..count_word(t) as usize {
        t[RECORDS + 16 * i + 13] = 0;
    }
    t[30] = a as u32;
    t[31] = a as u32;
}

// Writes the next far record: the feature and the spare words of node i, with the list as its body. Answers its number, and marks node i with 1 more.
pub fn add_copy(t: &mut [u32], i: usize, list: &[u32; 12]) -> usize
    requires { Spare t.old i }
    ensures { (result ≡ done t.old) × (Put t.old t.new i list.now) }
{
    let m = head_word(t, 31);
    let base = RECORDS + 16 * (capacity_word(t) + m) as usize;
    let x = record_word(t, i, 14);
    let y = record_word(t, i, 15);
    t[base] = record_word(t, i, 0);
    t[base + 1..base + 13].copy_from_slice(list);
    t[base + 14] = x;
    t[base + 15] = y;
    t[RECORDS + 16 * i + 13] = m + 1;
    t[31] = m + 1;
    m as usize
}

// Puts the far records behind the nodes that stay in the near ones' place, and clears them.
pub fn bring_back(t: &mut [u32])
    requires { Full t.old }
    ensures { Brought t.old t.new }
{
    let m = head_word(t, 31);
    let far = RECORDS + 16 * capacity_word(t) as usize;
    let start = 16 * head_word(t, 30) as usize;
    let end = 16 * count_word(t) as usize;
    t.copy_within(far + start..far + end, RECORDS + start);
    t[far + start..far + end].fill(0);
    t[19] = m;
    t[30] = 0;
    t[31] = 0;
}

// Chains the nodes from a on anew, behind the first a.
pub fn relink(t: &mut [u32], a: usize)
    requires { Bare t.old a }
    ensures { Relinked t.old t.new }
{
    for i in a..count_word(t) as usize {
        let h = hash_at(t, i);
        t[RECORDS + 16 * i + 13] = t[CHAINS + h];
        t[CHAINS + h] = (i + 1) as u32;
    }
}
