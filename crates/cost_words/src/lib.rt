// What the words of a cost table say: targets in half words, added integers, roots and bases.
#![tactic(auto)]

mod sides; // sides.rt: the lowest and the highest sum kept for each node
mod sums; // sums.rt: sums that may have no word

ghost use Rattle.std.specs.Prelude.{◌≡◌, ℕ, ◌+◌, ◌*◌, ◌≤◌, ◌<◌, length, get_or, ◌+ℤ◌, ◌-ℤ◌};
ghost use Rattle.cost_words.specs.Words.{packed, target_of, Worded, tos, adding};
ghost use Rattle.promises.specs.Integers.{Fit, int};
ghost use Rattle.promises.specs.Range.{add_most};
ghost use Rattle.promises.specs.Words.{body};
ghost use Rattle.promises.specs.CostWords.{target, goes, added, cost_root as root, cost_base as base};

pub use sides::{Span, kept_span, sides_of, wider};
pub use sums::{difference_or_lost, further, sum_or_lost};
use table_words::{HALF, half_of, head_word, record_word};

// The word that stands for the integer 0, here and where words are added up.
pub const ZERO: u32 = 2147483648;

const WIDE_ZERO: u64 = 2147483648;

// Target words from this on say nodes: FIRST + i is node i.
pub const FIRST: u32 = 1;

// Where a branch goes: to the end or to a node.
#[derive(Clone, Copy)]
pub enum Target {
    End,
    Node(u32),
}

// The word of a target. It asks that the word fits, which a `From` cannot.
pub fn target_word(x: Target) -> u32
    requires { Worded x }
    ensures { target result ≡ target_of x }
{
    match x {
        Target::End => 0,
        Target::Node(i) => 1 + i,
    }
}

// The target of a word.
pub fn target_at(w: u32) -> Target
    ensures { target_of result ≡ target w }
{
    if w == 0 {
        Target::End
    } else {
        Target::Node(w - 1)
    }
}

// The target word of value v of record i.
pub fn goes_to(t: &[u32], i: usize, v: usize) -> u32
    requires { (8192 + 16 * i + 16 ≤ length t.now) × (i < 8192) × (v < 8) }
    ensures { result ≡ goes (body t.now i) v }
{
    half_of(record_word(t, i, 1 + v / 2), v)
}

// The word that stands for what the branch of value v of record i adds.
pub fn adds_at(t: &[u32], i: usize, v: usize) -> u32
    requires { (8192 + 16 * i + 16 ≤ length t.now) × (i < 8192) × (v < 8) }
    ensures { result ≡ added (body t.now i) v }
{
    record_word(t, i, 5 + v)
}

// The root word of place p.
pub fn root_word(t: &[u32], p: usize) -> u32
    requires { (64 ≤ length t.now) × (p < 16) }
    ensures { result ≡ root t.now p }
{
    head_word(t, 32 + p)
}

// The word that stands for the base of place p.
pub fn base_word(t: &[u32], p: usize) -> u32
    requires { (64 ≤ length t.now) × (p < 16) }
    ensures { result ≡ base t.now p }
{
    head_word(t, 48 + p)
}

// The word that stands for the sum of two.
pub fn sum_word(a: u32, b: u32) -> u32
    requires { Fit add_most (int a +ℤ int b) }
    ensures { int result ≡ int a +ℤ int b }
{
    (u64::from(a) + u64::from(b) - WIDE_ZERO) as u32
}

// The word that stands for the difference of two.
pub fn difference_word(a: u32, b: u32) -> u32
    requires { Fit add_most (int a -ℤ int b) }
    ensures { int result ≡ int a -ℤ int b }
{
    (u64::from(a) + WIDE_ZERO - u64::from(b)) as u32
}

// A branch: the words of its target and of what it adds.
#[derive(Clone, Copy)]
pub struct Arm {
    pub to: u32,
    pub adds: u32,
}

// Body word v of a record with these branches.
fn packed_word(arms: &[Arm; 8], v: usize) -> u32
    requires { ((u : ℕ) → u < 8 → tos arms.now u < 65536) × (v < 12) }
    ensures { result ≡ packed (tos arms.now) (adding arms.now) v }
{
    if v < 4 {
        arms[2 * v].to + HALF * arms[2 * v + 1].to
    } else {
        arms[v - 4].adds
    }
}

// The body of a record with these branches.
pub fn packed_body(arms: &[Arm; 8]) -> [u32; 12]
    requires { (u : ℕ) → u < 8 → tos arms.now u < 65536 }
    ensures { (v : ℕ) → v < 12 → get_or result v 0 ≡ packed (tos arms.now) (adding arms.now) v }
{
    let mut list = [0u32; 12];
    for v in 0..12 {
        list[v] = packed_word(arms, v);
    }
    list
}
