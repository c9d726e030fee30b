// Read: the rule of a sheet into a place. The bytes are checked before a word of the table is touched.
ghost use Rattle.std.specs.Prelude.{◌≡◌, ◌<◌};
ghost use Rattle.settings.specs.Tells.{Tells};
ghost use Rattle.promises.specs.Words.{sizes};
ghost use Rattle.promises.specs.RuleSound.{RuleSound};
ghost use Rattle.promises.specs.Sheet.{sheet_sizes, sheet_rule};
ghost use Rattle.promises.specs.Deed.{Meets};
ghost use Rattle.promises.specs.SheetDeeds.{read_sheet};
ghost use Rattle.rule_settling.specs.Settling.{Puts};

use rule_calls::door;
use rule_settling::settle;
use settings::Refusal;
use sheet_bytes::Head;
use sheet_check::{Sheet, check};
use sheet_reader::take_in;
use table_words::{count_word, features_word, size_word};

// Whether the sheet's feature list is the table's.
fn same_list(t: &[u32], head: Head) -> bool
    requires { RuleSound t.now }
    ensures { Tells result (sheet_sizes head.entry.bytes.now ≡ sizes t.now) }
{
    let n = head.features();
    n == features_word(t) as usize && (0..n).all(|k| head.size(k) == size_word(t, k) as usize)
}

// The rule of a sheet over the table's features becomes the rule of the place.
fn put_read(t: &mut [u32], place: usize, sheet: Sheet) -> Result<(), Refusal>
    requires { (RuleSound t.old) × (place < 32) × (sheet_sizes sheet.laid.bytes.now ≡ sizes t.old) }
    ensures { Puts place (sheet_rule sheet.entry.laid.bytes.now) t.old t.new result }
{
    let used = count_word(t) as usize;
    let r = take_in(t, sheet);
    settle(t, place, used, r)
}

// The rule of the sheet becomes the rule of the place.
pub fn read(t: &mut [u32], place: usize, sheet: &[u8]) -> Result<(), Refusal>
    ensures { Meets (read_sheet place sheet.now) t.old t.new result }
{
    door(t, &[place])?;
    let mut places = [0u32; 4096];
    let sheet = check(sheet, &mut places)?;
    if !same_list(t, sheet.laid.head()) {
        return Err(Refusal::OtherFeatures);
    }
    put_read(t, place, sheet)
}
