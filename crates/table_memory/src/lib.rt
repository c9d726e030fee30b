// What a walk over a table remembers, in lent scratch words or in the far records' window: entries of a key's words, the first of them not 0 (0: empty),
// and the two words of a result.
#![tactic(auto)]

mod slots; // slots.rt: which entries a result is remembered in

ghost use Rattle.std.specs.Prelude.{◌≡◌, ◌<◌, length, get_or};
ghost use Rattle.table_notes.specs.Far.{memory, Windowed};
ghost use Rattle.table_notes.specs.Plain.{plain};
ghost use Rattle.table_memory.specs.Memory.{Inside, Recalls, Stored};

use slots::{mixed, slot_after, slot_at};
use table_notes::window_word;
use table_words::{RECORDS, capacity_word};

// The entry to begin at, by the operator and all words of the key, from the last to the first: a walk knows its operands before the feature that it begins with.
fn slot_of(slots: usize, o: u32, key: &[u32]) -> usize
    requires { 0 < slots }
    ensures { result < slots }
{
    let mut h = o;
    for x in key.iter().rev() {
        h = mixed(h, *x);
    }
    slot_at(h, slots)
}

// What entry i remembers, where it is for this key: word by word, since another key mostly differs at once (`==` of slices is slower there).
fn recall_at(s: &[u32], i: usize, key: &[u32]) -> Option<(u32, u32)>
    requires { Inside (length key.now) s.now i }
    ensures { Recalls s.now key.now result }
{
    let n = key.len();
    let base = (n + 2) * i;
    for j in 0..n {
        if s[base + j] != key[j] {
            return None;
        }
    }
    Some((s[base + n], s[base + (n + 1)]))
}

// Makes entry i remember the result's words x and y for this key: few words, for which `copy_from_slice` is slower than a loop.
fn remember_at(s: &mut [u32], i: usize, key: &[u32], x: u32, y: u32)
    requires { Inside (length key.now) s.old i }
    ensures { Stored s.old s.new key.now x y }
{
    let n = key.len();
    let base = (n + 2) * i;
    for (j, x) in key.iter().enumerate() {
        s[base + j] = *x;
    }
    s[base + n] = x;
    s[base + (n + 1)] = y;
}

// What these words remember for a key, in either entry; the operator only chooses these.
pub fn recall(s: &[u32], o: u32, key: &[u32]) -> Option<(u32, u32)>
    ensures { Recalls s.now key.now result }
{
    let slots = s.len() / (key.len() + 2);
    if slots == 0 {
        return None;
    }
    let i = slot_of(slots, o, key);
    recall_at(s, i, key).or_else(|| recall_at(s, slot_after(i, slots), key))
}

// Makes these words remember the result's words x and y for a key: in the first entry if that is empty, else in the one after it.
pub fn remember(s: &mut [u32], o: u32, key: &[u32], x: u32, y: u32)
    requires { 0 < get_or key.now 0 0 }
    ensures { Stored s.old s.new key.now x y }
{
    let slots = s.len() / (key.len() + 2);
    if slots == 0 {
        return;
    }
    let first = slot_of(slots, o, key);
    let empty = s[(key.len() + 2) * first] == 0;
    let i = if empty {
        first
    } else {
        slot_after(first, slots)
    };
    remember_at(s, i, key, x, y);
}

// What is remembered for a key, of the table t with the scratch s.
pub fn recall_in(t: &[u32], s: &[u32], o: u32, key: &[u32]) -> Option<(u32, u32)>
    requires { Windowed t.now }
    ensures { Recalls (memory t.now s.now) key.now result }
{
    let m = window_word(t);
    if m == 0 {
        return recall(s, o, key);
    }
    let from = RECORDS + 16 * capacity_word(t) as usize;
    recall(&t[from..from + m], o, key)
}

// Remembers the result's words x and y for a key.
pub fn remember_in(t: &mut [u32], s: &mut [u32], o: u32, key: &[u32], x: u32, y: u32)
    requires { (Windowed t.old) × (0 < get_or key.now 0 0) }
    ensures { (plain t.new ≡ plain t.old) × (Stored (memory t.old s.old) (memory t.new s.new) key.now x y)
        × (Windowed t.new) }
{
    let m = window_word(t);
    if m == 0 {
        return remember(s, o, key, x, y);
    }
    let from = RECORDS + 16 * capacity_word(t) as usize;
    remember(&mut t[from..from + m], o, key, x, y);
}
