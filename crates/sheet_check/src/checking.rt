// Canonical form, and the whole check of a sheet.
ghost use Rattle.std.specs.Prelude.{◌≡◌, MatchOption, IfOk};
ghost use Rattle.settings.specs.Tells.{Tells};
ghost use Rattle.settings.specs.Refusals.{Ends, ending_of, taken};
ghost use Rattle.sheet_bytes.specs.Frame.{Canonical};
ghost use Rattle.sheet_bytes.specs.RuleFrame.{rule_frame};
ghost use Rattle.promises.specs.Sheet.{GoodSheet};
ghost use Rattle.promises.specs.SheetDeeds.{sheet_cases};

use crate::checked::Sheet;
use crate::nodes::Lawful;
use crate::order::in_order;
use crate::twins::reduced;
use settings::Refusal;
use sheet_bytes::{Head, ROOTS, lay, newer};

// Whether bytes of lawful form have canonical form: no idle node, no twins, and the nodes in the walk's order.
fn canonical(lawful: Lawful) -> bool
    ensures { Tells result (Canonical rule_frame lawful.entry.laid.bytes.now) }
{
    reduced(lawful.laid) && in_order(&lawful)
}

// The sheet that the bytes are, with the places of its nodes.
fn find_sheet<'a>(bytes: &'a [u8], places: &'a mut [u32; 4096]) -> Option<Sheet<'a>>
    ensures { MatchOption result (GoodSheet bytes.now → ⊥) (λ sheet. sheet.laid.bytes.now ≡ bytes.now) }
{
    let head = Head::open(bytes)?;
    if !head.first_edition() {
        return None;
    }
    let laid = lay(head, places, ROOTS)?;
    let lawful = Lawful::of(laid)?;
    if !canonical(lawful) {
        return None;
    }
    Some(Sheet { laid })
}

// The sheet that the bytes are; or whether they are a newer one, or none.
pub fn check<'a>(bytes: &'a [u8], places: &'a mut [u32; 4096]) -> Result<Sheet<'a>, Refusal>
    ensures ends { Ends (sheet_cases bytes.now taken) (ending_of result) }
    ensures same { IfOk result (λ sheet. sheet.laid.bytes.now ≡ bytes.now) }
{
    if newer(bytes) {
        return Err(Refusal::Newer);
    }
    find_sheet(bytes, places).ok_or(Refusal::BadSheet)
}
