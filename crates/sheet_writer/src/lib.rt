// The sheet of a place's rule, written into bytes.
#![tactic(auto)]

mod writing; // writing.rt: the sections

ghost use Rattle.std.specs.Prelude.{◌<◌};
ghost use Rattle.sheet_bytes.specs.Sheet.{sheet_of};
ghost use Rattle.sheet_laying.specs.Laid.{Laid};
ghost use Rattle.promises.specs.Words.{sizes};
ghost use Rattle.promises.specs.RuleWords.{rule_of};
ghost use Rattle.promises.specs.RuleSound.{RuleSound as Sound};

use crate::writing::{put_back, put_front, sheet_length};
use rule_numbering::Notes;
use rule_words::root_word;
use sheet_laying::Cursor;

// Writes the sheet of the place's rule and answers its length; where the output is shorter, writes nothing.
pub fn put_sheet(t: &[u32], place: usize, out: &mut [u8]) -> Option<usize>
    requires { (Sound t.now) × (place < 32) }
    ensures { Laid (sheet_of (sizes t.now) (rule_of t.now place)) out.old out.new result }
{
    let mut notes = Notes::new();
    notes.number_run(t, place, 1);
    let n = sheet_length(t, &notes);
    if out.len() < n {
        return None;
    }
    let mut cursor = Cursor { out, at: 0 };
    put_front(t, &mut cursor);
    put_back(t, &notes, root_word(t, place), &mut cursor);
    Some(cursor.at)
}
