// Words of a call's own in the far records of a table, which are 0 at rest: the words without them, how they are taken away, and the window, the part that a walk remembers in.
#![tactic(auto)]

ghost use Rattle.std.specs.Prelude.{◌≡◌, ◌+◌, ◌*◌, ◌-◌, ◌≤◌, ◌<◌, set};
ghost use Rattle.table_notes.specs.Plain.{Roomy, Resting, plain, Cleared};
ghost use Rattle.table_notes.specs.Far.{window, Windowed, Begun};
ghost use Rattle.promises.specs.Words.{capacity};

use table_words::{RECORDS, capacity_word, count_word};

// Makes words 0, as a memory is before a walk.
pub fn clear(s: &mut [u32])
    ensures { Cleared s.new }
{
    s.fill(0);
}

// Makes the far records 0.
pub fn clear_far(t: &mut [u32])
    requires { Roomy t.old }
    ensures { t.new ≡ plain t.old }
{
    let n = 16 * capacity_word(t) as usize;
    let from = RECORDS + n;
    clear(&mut t[from..from + n]);
}

// How many words of the far records, from the first on, remember; the last of them says it. 0: the scratch remembers.
pub fn window_word(t: &[u32]) -> usize
    requires { Windowed t.now }
    ensures { result ≡ window t.now }
{
    t[RECORDS + 32 * capacity_word(t) as usize - 1] as usize
}

// Says in the last word of the far records how many remember.
fn set_window(t: &mut [u32], m: usize)
    requires { (Roomy t.old) × (1 ≤ capacity t.old) × (m < 65536) }
    ensures { t.new ≡ set t.old (8192 + 32 * capacity t.old - 1) m }
{
    t[RECORDS + 32 * capacity_word(t) as usize - 1] = m as u32;
}

// Chooses where a walk will remember, by the nodes in use: answers how many words of a scratch of `lent` are to be lent and cleared. 0: the far records remember.
pub fn begin(t: &mut [u32], lent: usize) -> usize
    requires { Resting t.old }
    ensures { Begun t.old t.new lent result }
{
    let wanted = 1024 + 64 * count_word(t) as usize;
    let room = 16 * capacity_word(t) as usize;
    if wanted <= lent {
        return wanted;
    }
    if room <= wanted.min(lent) {
        return lent;
    }
    set_window(t, wanted.min(room - 1));
    0
}

// Makes the far records 0 after a walk: those in the window, and the word that says it.
pub fn clear_window(t: &mut [u32])
    requires { Windowed t.old }
    ensures { t.new ≡ plain t.old }
{
    let m = window_word(t);
    if m == 0 {
        return;
    }
    let from = RECORDS + 16 * capacity_word(t) as usize;
    set_window(t, 0);
    clear(&mut t[from..from + m]);
}
