// The words of a table's header, by name.
ghost use Rattle.std.specs.Prelude.{◌≡◌, ◌+◌, ◌<◌, length};
ghost use Rattle.promises.specs.Words.{head, capacity, features, size, count, bucket};

use crate::CHAINS;

// Word j of the header.
pub fn head_word(t: &[u32], j: usize) -> u32
    requires { j < length t.now }
    ensures { result ≡ head t.now j }
{
    t[j]
}

// How many nodes the table has room for.
pub fn capacity_word(t: &[u32]) -> u32
    requires { 1 < length t.now }
    ensures { result ≡ capacity t.now }
{
    t[1]
}

// How many features there are.
pub fn features_word(t: &[u32]) -> u32
    requires { 2 < length t.now }
    ensures { result ≡ features t.now }
{
    t[2]
}

// The size of feature k.
pub fn size_word(t: &[u32], k: usize) -> u32
    requires { 3 + k < length t.now }
    ensures { result ≡ size t.now k }
{
    t[3 + k]
}

// How many nodes are in use.
pub fn count_word(t: &[u32]) -> u32
    requires { 19 < length t.now }
    ensures { result ≡ count t.now }
{
    t[19]
}

// The chain head of hash h.
pub fn bucket_word(t: &[u32], h: usize) -> u32
    requires { 4096 + h < length t.now }
    ensures { result ≡ bucket t.now h }
{
    t[CHAINS + h]
}
