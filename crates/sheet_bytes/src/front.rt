// The sections before the nodes: the edition, the features, and the count of the nodes.
ghost use Rattle.std.specs.Prelude.{◌≡◌, ◌≤◌, ◌<◌, MatchOption};
ghost use Rattle.std.proofs.Props.{props};
ghost use Rattle.settings.specs.Tells.{Tells};
ghost use Rattle.sheet_bytes.specs.Frame.{Opens};
ghost use Rattle.sheet_bytes.specs.RuleFrame.{rule_frame};
ghost use Rattle.promises.specs.Sheet.{byte, NewerSheet, sheet_features as features, sheet_sizes as sizes, sheet_size as size, sheet_count as count};

use crate::bytes::pair_at;
use settings::features_ok;

// The first section has one byte, the edition.
const FIRST: usize = 1;

// A section begins with the count of its items, of two bytes.
pub const COUNT: usize = 2;

// Where the second section begins, that of the features.
const SECOND: usize = COUNT + FIRST;

// Where the sizes begin.
const SIZES: usize = SECOND + COUNT;

// What stands before the nodes, besides the sizes.
pub const BEFORE: usize = SIZES + COUNT;

// Whether a later edition wrote the sheet.
pub fn newer(s: &[u8]) -> bool
    ensures { Tells result (NewerSheet s.now) }
{
    s.len() >= SECOND && s[0] == 0 && s[1] == 1 && s[2] >= 2
}

// Bytes whose sections before the nodes are good, whatever the edition.
#[derive(Clone, Copy)]
pub struct Head<'a> {
    pub bytes: &'a [u8],
    pub ghost opens: { Opens rule_frame bytes.now } by { Prim.hlevel props },
}

impl<'a> Head<'a> {
    // The sections before the nodes, where they are good.
    pub fn open(bytes: &'a [u8]) -> Option<Head<'a>>
        ensures { MatchOption result (Opens rule_frame bytes.now → ⊥) (λ head. head.bytes.now ≡ bytes.now) }
    {
        if bytes.len() < BEFORE || pair_at(bytes, 0) != FIRST {
            return None;
        }
        let n = pair_at(bytes, SECOND);
        if bytes.len() < BEFORE + n || !features_ok(&bytes[SIZES..SIZES + n]) {
            return None;
        }
        Some(Head { bytes })
    }

    // Whether the edition is 1.
    pub fn first_edition(self) -> bool
        ensures { Tells result (byte self.entry.bytes.now 2 ≡ 1) }
    {
        self.bytes[2] == 1
    }

    // How many features the sheet has.
    pub fn features(self) -> usize
        ensures { (result ≡ features self.entry.bytes.now) × (1 ≤ result) × (result ≤ 16) }
    {
        pair_at(self.bytes, SECOND)
    }

    // The sizes of the features.
    pub fn sizes(self) -> &'a [u8]
        ensures { result.now ≡ sizes self.entry.bytes.now }
    {
        let n = self.features();
        &self.bytes[SIZES..SIZES + n]
    }

    // The size of feature k.
    pub fn size(self, k: usize) -> usize
        requires { k < features self.bytes.now }
        ensures { (result ≡ size self.entry.bytes.now k) × (2 ≤ result) × (result ≤ 8) }
    {
        usize::from(self.bytes[SIZES + k])
    }

    // How many nodes the sheet has.
    pub fn count(self) -> usize
        ensures { (result ≡ count self.entry.bytes.now) × (result < 65536) }
    {
        pair_at(self.bytes, SIZES + self.features())
    }
}
