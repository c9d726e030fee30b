// Where each node begins, and what stands there.
ghost use Rattle.std.specs.Prelude.{◌≡◌, ◌≤◌, ◌<◌, MatchOption};
ghost use Rattle.std.proofs.Props.{props};
ghost use Rattle.sheet_bytes.specs.Frame.{Lays, root_spot};
ghost use Rattle.sheet_bytes.specs.RuleFrame.{rule_frame};
ghost use Rattle.sheet_bytes.specs.Bytes.{Placed, Spans};
ghost use Rattle.promises.specs.Sheet.{triple as word, sheet_count as count};
ghost use Rattle.promises.specs.Sheet.{sheet_feature as feature, sheet_width as width, sheet_branch as branch};

use crate::bytes::pair_at;
use crate::front::{BEFORE, COUNT, Head};
use crate::hand::{BRANCH, spot, word_at};

// Bytes in which nodes lie one after the other up to the roots, which end them; and where each node begins.
#[derive(Clone, Copy)]
pub struct Laid<'a> {
    pub bytes: &'a [u8],
    pub places: &'a [u32; 4096],
    pub roots: usize,
    pub ghost placed: { Placed bytes.now places.now } by { Prim.hlevel props },
    pub ghost lays: { Lays rule_frame bytes.now roots 0 } by { Prim.hlevel props },
    pub ghost few: { roots ≤ 32 },
}

impl<'a> Laid<'a> {
    // The sections before the nodes.
    pub fn head(self) -> Head<'a>
        ensures { result.bytes.now ≡ self.entry.bytes.now }
    {
        Head { bytes: self.bytes }
    }

    // How many nodes the sheet has.
    pub fn count(self) -> usize
        ensures { (result ≡ count self.entry.bytes.now) × (result ≤ 4096) }
    {
        self.head().count()
    }

    // The branch word of root r.
    pub fn root(self, r: usize) -> usize
        requires { r < self.roots }
        ensures { (result ≡ word self.entry.bytes.now (root_spot rule_frame self.entry.bytes.now r)) × (result < 16777216) }
    {
        word_at(self.bytes, spot(self.bytes.len() - BRANCH * self.roots, r))
    }

    // The feature of node i.
    pub fn feature(self, i: usize) -> usize
        requires { i < count self.bytes.now }
        ensures { (result ≡ feature self.entry.bytes.now i) × (result < 16) }
    {
        usize::from(self.bytes[self.places[i] as usize])
    }

    // How many branches node i has.
    pub fn width(self, i: usize) -> usize
        requires { i < count self.bytes.now }
        ensures { (result ≡ width self.entry.bytes.now i) × (2 ≤ result) × (result ≤ 8) }
    {
        self.head().size(self.feature(i))
    }

    // The word of branch v of node i.
    pub fn branch(self, i: usize, v: usize) -> usize
        requires { (i < count self.bytes.now) × (v < width self.bytes.now i) }
        ensures { (result ≡ branch self.entry.bytes.now i v) × (result < 16777216) }
    {
        word_at(self.bytes, spot(self.places[i] as usize + 1, v))
    }
}

// The bytes and the places of their nodes, where the nodes lie one after the other up to so many roots, which end the bytes.
pub fn lay<'a>(head: Head<'a>, places: &'a mut [u32; 4096], roots: usize) -> Option<Laid<'a>>
    requires { roots ≤ 32 }
    ensures { MatchOption result (Spans head.entry.bytes.now roots → ⊥)
        (λ laid. (laid.bytes.now ≡ head.entry.bytes.now) × (laid.roots ≡ roots)) }
{
    let s = head.bytes;
    let n = head.features();
    let m = head.count();
    if places.len() < m {
        return None;
    }
    let mut p = BEFORE + n;
    for i in 0..m {
        if s.len() <= p {
            return None;
        }
        let f = usize::from(s[p]);
        if n <= f {
            return None;
        }
        places[i] = p as u32;
        p = spot(p + 1, head.size(f));
    }
    if s.len() != spot(p + COUNT, roots) || pair_at(s, p) != roots {
        return None;
    }
    Some(Laid {
        bytes: s,
        places,
        roots,
    })
}
