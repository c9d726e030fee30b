// The collector for every kind: only the nodes that the roots reach stay, numbered as building the functions of the places in turn numbers them.
// `first` tells the kind: branch words below it end, the others say nodes. It is a number that words are compared with and counted from, and the laws hold of any.
#![tactic(auto)]

ghost use Rattle.std.specs.Prelude.{◌≡◌, ◌+◌, ◌*◌, ◌≤◌, ◌<◌, length};
ghost use Rattle.table_words.specs.Words.{listed};
ghost use Rattle.table_sweep.specs.Marks.{kept, mark, highest};
ghost use Rattle.table_collect.specs.Walk.{Laid, Open, Lawful, Done, moves_step, Here, Swept};
ghost use Rattle.promises.specs.Words.{count, body};

use table_sweep::{add_copy, bring_back, relink, unlink};
use table_words::{HALVES, head_word, record_word, way_word, width, with_half};

// Branch v laid into a body: it has the word r, and adds what branch v of node i adds.
fn lay_branch(t: &[u32], first: u32, i: usize, v: usize, r: u32, list: &mut [u32; 12])
    requires { (8192 + 16 * i + 16 ≤ length t.now) × (i < 8192) × (v < 8) × (first ≡ 1 → r < 65536) × (length list.old ≡ 12) }
    ensures { (Laid first (body t.now i) (listed list.old) (listed list.new) v r) × (length list.new ≡ 12) }
{
    if first == HALVES {
        list[v / 2] = with_half(list[v / 2], v, r);
        list[4 + v] = record_word(t, i, 5 + v);
    } else {
        list[v] = r;
    }
}

// The copy of what a branch word goes to, where it has one already. Words below `low` end or say nodes that stay.
fn here(t: &[u32], first: u32, low: u32, b: u32) -> Option<u32>
    requires { (Open first t.now) × (b < first + count t.now) × (low ≡ first + kept t.now) }
    ensures { Here first t.now b result }
{
    if b < low {
        return Some(b);
    }
    let c = record_word(t, (b - first) as usize, 13);
    if 0 < c { Some(first + (c - 1)) } else { None }
}

// The copy of node i, which has none: with the copies of its branches in turn, 0 past them.
fn copy_node(t: &mut [u32], first: u32, low: u32, i: usize) -> u32
    requires { (Open first t.old) × (i < count t.old) × (mark t.old i ≡ 0) × (low ≡ first + kept t.old) }
    ensures { Done first t.old t.new (moves_step (first + i) result) }
{
    let mut list = [0; 12];
    for v in 0..width(t, i) {
        let x = way_word(t, first, i, v);
        let r = match here(t, first, low, x) {
            Some(r) => r,
            None => copy_node(t, first, low, (x - first) as usize),
        };
        lay_branch(t, first, i, v, r, &mut list);
    }
    first + add_copy(t, i, &list) as u32
}

// The copy of what a branch word goes to, made where there is none.
fn copy_branch(t: &mut [u32], first: u32, low: u32, b: u32) -> u32
    requires { (Open first t.old) × (b < first + count t.old) × (low ≡ first + kept t.old) }
    ensures { Done first t.old t.new (moves_step b result) }
{
    match here(t, first, low, b) {
        Some(r) => r,
        None => copy_node(t, first, low, (b - first) as usize),
    }
}

// 1 + the highest node that is a root of the first p places, 0 where none is: so many nodes building their functions in turn gives. 0 is a number of nodes like another.
fn kept_by(t: &[u32], first: u32, n: usize, p: usize) -> u32
    requires { Lawful first n p t.now }
    ensures { result ≡ highest first t.now p }
{
    let mut a = 0;
    for q in 0..p {
        let b = head_word(t, 32 + q);
        if first + a <= b {
            a = b - first + 1;
        }
    }
    a
}

// Place p was changed: of the nodes behind those of the places before it only what the first n roots reach stays, in the order of the functions
// built in turn, and is chained anew.
pub fn tidy(t: &mut [u32], first: u32, n: usize, p: usize)
    requires { Lawful first n p t.old }
    ensures { Swept first n p t.old t.new }
{
    let a = kept_by(t, first, n, p);
    unlink(t, a as usize);
    for q in p..n {
        let b = head_word(t, 32 + q);
        let r = copy_branch(t, first, first + a, b);
        t[32 + q] = r;
    }
    bring_back(t);
    relink(t, a as usize);
}
