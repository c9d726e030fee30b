// A fresh table laid out in lent words, and whether it can be.
ghost use Rattle.std.specs.Prelude.{◌≤◌, ◌<◌, length};
ghost use Rattle.settings.specs.Tells.{Tells};
ghost use Rattle.table_calls.specs.Opening.{Cleared, Based, Named, Sized, Opened};
ghost use Rattle.promises.specs.TableDeeds.{Openable};

use settings::{Refusal, features_ok};
use table_words::{NODES, RECORDS};

// Whether a table over the feature list with room for capacity nodes can be opened in the words t.
fn can_open(t: &[u32], features: &[u8], capacity: usize) -> bool
    ensures { Tells result (Openable features.now capacity (length t.now)) }
{
    features_ok(features)
        && 1 <= capacity
        && capacity <= NODES
        && RECORDS + 32 * capacity <= t.len()
}

// Sets the first n words to 0.
fn clear(t: &mut [u32], n: usize)
    requires { n ≤ length t.old }
    ensures { Cleared n t.old t.new }
{
    t[..n].fill(0);
}

// Sets the last 16 words of the places to the word of a base.
fn write_bases(t: &mut [u32], base: u32)
    requires { 64 ≤ length t.old }
    ensures { Based base t.old t.new }
{
    t[48..64].fill(base);
}

// Writes the sizes into the header.
fn write_sizes(t: &mut [u32], features: &[u8])
    requires { (length features.now ≤ 16) × (64 ≤ length t.old) }
    ensures { Sized features.now t.old t.new }
{
    for (k, size) in features.iter().enumerate() {
        t[3 + k] = u32::from(*size);
    }
}

// Lays a table of a kind out whose places hold the constant 0: no node, and the word of the base 0 where the kind has bases.
fn lay(t: &mut [u32], kind: u32, base: u32, features: &[u8], capacity: usize)
    requires { Openable features.now capacity (length t.old) }
    ensures { Named kind base features.now capacity t.old t.new }
{
    clear(t, RECORDS + 32 * capacity);
    write_bases(t, base);
    t[0] = kind;
    t[1] = capacity as u32;
    t[2] = features.len() as u32;
    write_sizes(t, features);
}

// Opens a table of a kind whose places hold the constant 0; BAD OPENING where that cannot be.
pub fn open(
    t: &mut [u32],
    kind: u32,
    base: u32,
    features: &[u8],
    capacity: usize,
) -> Result<(), Refusal>
    ensures { Opened kind base features.now capacity t.old t.new result }
{
    if !can_open(t, features, capacity) {
        return Err(Refusal::BadOpening);
    }
    lay(t, kind, base, features, capacity);
    Ok(())
}
