// What the words of a rule table say: a branch in a word, the roots.
#![tactic(auto)]

ghost use Rattle.std.specs.Prelude.{◌≡◌, ◌+◌, ◌≤◌, ◌<◌, length};
ghost use Rattle.rule_words.specs.Words.{branch_of, Worded};
ghost use Rattle.promises.specs.RuleWords.{decode, rule_root as root};

use table_words::head_word;

// Phrase numbers are below this; as a branch word, NUMBERS + i is node i.
pub const NUMBERS: u32 = 65536;

// A branch: a phrase number or a node.
#[derive(Clone, Copy, PartialEq, Eq, Debug)]
pub enum Branch {
    Phrase(u32),
    Node(u32),
}

// The word of a branch. No `From`: it asks that the branch has a word.
pub fn branch_word(b: Branch) -> u32
    requires { Worded b }
    ensures { decode result ≡ branch_of b }
{
    match b {
        Branch::Phrase(p) => p,
        Branch::Node(i) => NUMBERS + i,
    }
}

// The branch of a word.
pub fn branch_at(w: u32) -> Branch
    ensures { branch_of result ≡ decode w }
{
    if w < NUMBERS {
        Branch::Phrase(w)
    } else {
        Branch::Node(w - NUMBERS)
    }
}

// The root word of place p.
pub fn root_word(t: &[u32], p: usize) -> u32
    requires { (64 ≤ length t.now) × (p < 32) }
    ensures { result ≡ root t.now p }
{
    head_word(t, 32 + p)
}
