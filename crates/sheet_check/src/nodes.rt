// Lawful form: each branch of a node, and each root, ends or goes to a node where it may.
ghost use Rattle.std.specs.Prelude.{◌≡◌, ◌≤◌, ◌<◌, MatchOption};
ghost use Rattle.std.proofs.Props.{props};
ghost use Rattle.settings.specs.Tells.{Tells};
ghost use Rattle.sheet_bytes.specs.Frame as Frame;
ghost use Rattle.sheet_bytes.specs.RuleFrame.{rule_frame};
ghost use Rattle.sheet_check.specs.Diagram.{Downward, Rooted};
ghost use Rattle.promises.specs.Sheet.{sheet_count as count, SheetSits as Below, SheetLower as Lower};

use sheet_bytes::{Laid, NUMBERS};

// Laid bytes of lawful form.
#[derive(Clone, Copy)]
pub struct Lawful<'a> {
    pub laid: Laid<'a>,
    pub ghost downward: { Downward laid.bytes.now } by { Prim.hlevel props },
    pub ghost rooted: { Rooted laid.bytes.now laid.roots } by { Prim.hlevel props },
}

// Whether w is a phrase, or a node before i of feature k or higher.
fn below(laid: Laid, i: usize, k: usize, w: usize) -> bool
    requires { i ≤ count laid.bytes.now }
    ensures { Tells result (Below laid.entry.bytes.now i k w) }
{
    w < NUMBERS || (w - NUMBERS < i && k <= laid.feature(w - NUMBERS))
}

// Whether each branch of node i is a phrase or an earlier node of a higher feature.
fn lower(laid: Laid, i: usize) -> bool
    requires { i < count laid.bytes.now }
    ensures { Tells result (Lower laid.entry.bytes.now i) }
{
    let k = laid.feature(i) + 1;
    (0..laid.width(i)).all(|v| below(laid, i, k, laid.branch(i, v)))
}

// Whether each root is a phrase or a node.
fn roots_ok(laid: Laid) -> bool
    ensures { Tells result (Rooted laid.entry.bytes.now laid.entry.roots) }
{
    let m = laid.count();
    (0..laid.roots).all(|r| below(laid, m, 0, laid.root(r)))
}

impl<'a> Lawful<'a> {
    // The laid bytes, where they have lawful form: each branch and each root goes where it may.
    pub fn of(laid: Laid<'a>) -> Option<Lawful<'a>>
        ensures { MatchOption result (Frame.Lawful rule_frame laid.entry.bytes.now laid.entry.roots 0 → ⊥)
            (λ lawful. (lawful.laid.bytes.now ≡ laid.entry.bytes.now) × (lawful.laid.roots ≡ laid.entry.roots)) }
    {
        if (0..laid.count()).all(|i| lower(laid, i)) && roots_ok(laid) {
            Some(Lawful { laid })
        } else {
            None
        }
    }
}
