// A sheet's rule taken into a rule table: the sheet's nodes are walked once each, and made where the table has none.
#![tactic(auto)]

ghost use Rattle.std.specs.Prelude.{◌≡◌};
ghost use Rattle.rule_nodes.specs.Nodes.{Holds, Result};
ghost use Rattle.sheet_reader.specs.Reader.{Asks, Takes};
ghost use Rattle.promises.specs.Words.{sizes};
ghost use Rattle.promises.specs.Sheet.{sheet_sizes as sizes_of, sheet_rule as rule_of};

use rule_nodes::make;
use sheet_bytes::NUMBERS;
use sheet_check::Sheet;

// The table's branch for the sheet's branch word b. Each node of the sheet is walked once, and its branch noted.
// A note is a word, 0 where there is none: an array of Option<u32> would take twice the 16,384 bytes of stack (fixed memory).
fn take_branch(t: &mut [u32], sheet: Sheet, notes: &mut [u32; 4096], b: usize) -> Option<u32>
    requires { Asks t.old sheet.laid.bytes.now notes.old b }
    ensures { Takes t.old t.new sheet.entry.laid.bytes.now notes.new b result }
{
    if b < NUMBERS {
        return Some(b as u32);
    }
    let i = b - NUMBERS;
    let known = notes[i];
    if 0 < known {
        return Some(known - 1);
    }
    let k = sheet.laid.feature(i);
    let mut list = [0u32; 12];
    for v in 0..sheet.laid.width(i) {
        let r = take_branch(t, sheet, notes, sheet.laid.branch(i, v))?;
        list[v] = r;
    }
    let r = make(t, k, list)?;
    notes[i] = r + 1;
    Some(r)
}

// The table's branch for the root of a sheet over the table's features.
pub fn take_in(t: &mut [u32], sheet: Sheet) -> Option<u32>
    requires { (Holds t.old) × (sizes t.old ≡ sizes_of sheet.laid.bytes.now) }
    ensures { Result t.old t.new 0 (rule_of sheet.entry.laid.bytes.now) result }
{
    let mut notes = [0u32; 4096];
    take_branch(t, sheet, &mut notes, sheet.root())
}
