// Whether the pair that is kept for each node is the lowest and the highest sum below it, and the costs lie in their range.
// Branches go to earlier nodes, so a node's pair is tested against those before it, and no memory is needed.
ghost use Rattle.std.specs.Prelude.{◌<◌};
ghost use Rattle.settings.specs.Tells.{Tells};
ghost use Rattle.cost_sound.specs.Paired.{Shaped, Passes, Owns};
ghost use Rattle.promises.specs.Range.{Within, cost_most};
ghost use Rattle.promises.specs.Words.{count, sizes};
ghost use Rattle.promises.specs.CostSound.{Pairs, Ranged};
ghost use Rattle.promises.specs.CostWords.{cost_of};

use cost_words::{base_word, kept_span, root_word, sides_of};
use table_words::{body_of, count_word, record_word, size_word};

// Whether what is kept for node i is its own. A sum outside ±2,000,000,000 ends the test: no sound table has one.
fn own_ok(t: &[u32], i: usize) -> bool
    requires { (Shaped t.now) × (i < count t.now) }
    ensures { Passes result t.now (Owns t.now i) }
{
    let m = size_word(t, record_word(t, i, 0) as usize) as usize;
    let Some(pair) = sides_of(t, body_of(t, i), m) else {
        return false;
    };
    pair.low == record_word(t, i, 14) && pair.high == record_word(t, i, 15)
}

// Whether what is kept for each node is its own.
pub fn pairs_ok(t: &[u32]) -> bool
    requires { Shaped t.now }
    ensures { Passes result t.now (Pairs t.now) }
{
    let n = count_word(t) as usize;
    for i in 0..n {
        if !own_ok(t, i) {
            return false;
        }
    }
    true
}

// Whether the cost of place p lies within ±1,000,000,000: its base with what its root keeps.
fn place_ok(t: &[u32], p: usize) -> bool
    requires { (Shaped t.now) × (Pairs t.now) × (p < 16) }
    ensures { Tells result (Within cost_most (sizes t.now) (cost_of t.now p)) }
{
    let base = u64::from(base_word(t, p));
    let below = kept_span(t, root_word(t, p));
    3294967296 <= base + u64::from(below.low) && base + u64::from(below.high) <= 5294967296
}

// Whether the cost of each place does.
pub fn places_ok(t: &[u32]) -> bool
    requires { (Shaped t.now) × (Pairs t.now) }
    ensures { Tells result (Ranged t.now) }
{
    for p in 0..16 {
        if !place_ok(t, p) {
            return false;
        }
    }
    true
}
