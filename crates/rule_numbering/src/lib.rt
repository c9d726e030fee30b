// The nodes that branches reach, numbered depth first, branch 0 first, each when its branches are done: the order in which rules are built.
#![tactic(auto)]

ghost use Rattle.std.specs.Prelude.{◌≡◌, ◌≤◌, ◌<◌, length};
ghost use Rattle.rule_numbering.specs.Walkable.{Walkable, Stands};
ghost use Rattle.rule_numbering.specs.Numbering.{member, renumbered, Noted, Numbers};
ghost use Rattle.rule_numbering.specs.Running.{Run, Blank, Ran};
ghost use Rattle.promises.specs.Words.{size, count, feature};

use rule_words::{NUMBERS, root_word};
use table_words::record_word;

// The word for a node that has no number: below those of the nodes by their numbers.
const UNNUMBERED: u32 = 65535;

// Which nodes have numbers: the number of each node that has one, the nodes by their numbers, and how many there are.
// The nodes are a part of an array beside their count: the library has no heap.
#[derive(Drop)]
pub struct Notes {
    numbers: [Option<u16>; 4096],
    nodes: [u16; 4096],
    count: usize,
}

// How many branches node i has.
pub fn width(t: &[u32], i: usize) -> usize
    requires { (Walkable t.now) × (i < count t.now) }
    ensures { (result ≡ size t.now (feature t.now i)) × (result ≤ 8) }
{
    table_words::width(t, i)
}

impl Notes {
    // No node has a number.
    pub fn new() -> Notes
        ensures { Blank result }
    {
        Notes {
            numbers: [None; 4096],
            nodes: [0; 4096],
            count: 0,
        }
    }

    // How many nodes have a number.
    pub fn count(&self) -> usize
        ensures { result ≡ self.now.count }
    {
        self.count
    }

    // Numbers what the branch of word b reaches. Each node is walked once.
    pub fn number(&mut self, t: &[u32], b: u32)
        requires { (Walkable t.now) × (Noted t.now self.old self.old.count) × (Stands t.now b) }
        ensures { Numbers t.now self.old self.new b self.old.count self.new.count }
    {
        if b < NUMBERS {
            return;
        }
        let i = (b - NUMBERS) as usize;
        if self.numbers[i].is_some() {
            return;
        }
        let m = width(t, i);
        for v in 0..m {
            self.number(t, record_word(t, i, 1 + v));
        }
        let j = self.count;
        self.numbers[i] = Some(j as u16);
        self.nodes[j] = i as u16;
        self.count = j + 1;
    }

    // Numbers what a run of places reaches, in turn, none having a number.
    pub fn number_run(&mut self, t: &[u32], place: usize, many: usize)
        requires { (Walkable t.now) × (Run t.now place many) × (Blank self.old) }
        ensures { Ran t.now self.new place many self.new.count }
    {
        for q in 0..many {
            self.number(t, root_word(t, place + q));
        }
    }

    // The word of a branch to the same node by its number, for the table's word.
    pub fn renumber(&self, b: u32) -> u32
        requires { (length self.now.numbers ≡ 4096) × (b < 69632) × (renumbered self.now b < 131072) }
        ensures { result ≡ renumbered self.now b }
    {
        if b < NUMBERS {
            return b;
        }
        match self.numbers[(b - NUMBERS) as usize] {
            Some(j) => NUMBERS + u32::from(j),
            None => UNNUMBERED,
        }
    }

    // The node that has the number j.
    pub fn node_of(&self, j: usize) -> usize
        requires { (length self.now.nodes ≡ 4096) × (j < 4096) }
        ensures { result ≡ member self.now j }
    {
        usize::from(self.nodes[j])
    }
}
