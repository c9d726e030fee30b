// What a rule table lends to the part above it: the branch of a place, steps down from it, the feature that it tests, the number that it is;
// nodes made of branches, and the end of a call that builds. The part above knows branches by the laws of proofs/ alone.
#![tactic(auto)]

ghost use Rattle.std.specs.Prelude.{◌≡◌, ℕ, ◌<◌};
ghost use Rattle.settings.specs.Tells.{Tells};
ghost use Rattle.rule_lending.specs.Lending.{Lent, Lends, Roots, Goes, Tops, Number, Says, key_of, phrases};
ghost use Rattle.rule_lending.specs.Building.{Listed, Makes};
ghost use Rattle.rule_lending.specs.Settling.{Marked, Asks, Settled};
ghost use Rattle.promises.specs.Words.{features, size};
ghost use Rattle.promises.specs.RuleSound.{RuleSound as Sound};

use rule_nodes::{child_of, make as make_node, top_of};
use rule_settling::settle as settle_node;
use rule_words::{NUMBERS, root_word};
use settings::Refusal;
use table_words::count_word;

// ---- branches
// The branch word of a place.
pub fn root_of(t: &[u32], place: usize) -> u32
    requires { (Sound t.now) × (place < 32) }
    ensures { Roots t.now place result }
{
    root_word(t, place)
}

// The branch for value v of feature k.
pub fn branch_at(t: &[u32], k: usize, b: u32, v: usize) -> u32
    requires { (Lent t.now k b) × (k < features t.now) × (v < size t.now k) }
    ensures { Goes t.now k b v result }
{
    child_of(t, k, b, v)
}

// The feature that the branch b tests; the number of features where b is a phrase number.
pub fn top_at(t: &[u32], b: u32) -> usize
    requires { Lends t.now b }
    ensures { (k : ℕ) → Lent t.now k b → Tops t.now k b result }
{
    top_of(t, b)
}

// Whether a branch is a phrase number.
pub fn is_number(b: u32) -> bool
    ensures { Tells result (Number b) }
{
    b < NUMBERS
}

// The phrase number that it is.
pub fn number_of(b: u32) -> u32
    requires { Number b }
    ensures { Says b result }
{
    b
}

// The branch of a phrase number.
pub fn branch_of(n: u32) -> u32
    requires { n < phrases }
    ensures { Says result n }
{
    n
}

// A small number that tells a branch from every other.
pub fn key_of(b: u32) -> u32
    ensures { result ≡ key_of b }
{
    b
}

// ---- building
// The branch that has the list's branches at feature k; its node is made where there is none.
pub fn make(t: &mut [u32], k: usize, list: [u32; 12]) -> Option<u32>
    requires { Listed t.old k list }
    ensures { Makes t.old t.new k list result }
{
    make_node(t, k, list)
}

// The mark of a table before a call builds: what is built after it can be taken back.
pub fn begin(t: &[u32]) -> usize
    requires { Sound t.now }
    ensures { Marked t.now result }
{
    count_word(t) as usize
}

// What was built after the mark n becomes the rule of the place; where there was no room it is taken back.
pub fn settle(t: &mut [u32], place: usize, n: usize, r: Option<u32>) -> Result<(), Refusal>
    requires { Asks place n t.old r }
    ensures { Settled place n t.old t.new r result }
{
    settle_node(t, place, n, r)
}
