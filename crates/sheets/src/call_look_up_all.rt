// Look up of many: several settings, one after the other in bytes, with one check of the sheet for all, for Rattle and for C.
ghost use Rattle.std.specs.Prelude.{◌≡◌, [], length};
ghost use Rattle.settings.specs.Tells.{Tells};
ghost use Rattle.settings.specs.Refusals.{Ends, taken};
ghost use Rattle.promises.specs.Sheet.{sheet_sizes, row, GoodSheet};
ghost use Rattle.promises.specs.Deed.{Meets};
ghost use Rattle.promises.specs.SheetDeeds.{sheet_cases, SettingRows, number_in, look_up_all_in};
ghost use Rattle.promises.specs.ForC.{heard, Hears, tell_filled};

use crate::call_look_up::{REFUSED, fits, lampgrotto_look_up, walk};
use settings::{Refusal, outcome_number};
use sheet_bytes::{Head, ROOTS, lay};
use sheet_check::Sheet;

// What the look up of one setting returns of a newer sheet, and of bytes that are no sheet: 65,536 plus the refusal's number.
const NEWER: u32 = REFUSED + Refusal::Newer as u32;

const BAD_SHEET: u32 = REFUSED + Refusal::BadSheet as u32;

// Good bytes with the places of their nodes.
fn placed<'a>(bytes: &'a [u8], places: &'a mut [u32; 4096]) -> Sheet<'a>
    requires { GoodSheet bytes.now }
    ensures { result.laid.bytes.now ≡ bytes.entry.now }
{
    let head = Head { bytes };
    let Some(laid) = lay(head, places, ROOTS) else {
        unreachable!();
    };
    Sheet { laid }
}

// The check of a sheet, by the look up of no values, as no sheet has a setting of none: so the machine code of the check stands once, in that
// look up. Where both look ups call `sheet_check::check`, each has over 400 bytes of code more, and the phone's look up misses its bar of 1,590.
fn check_sheet(bytes: &[u8]) -> Result<(), Refusal>
    ensures { Ends (sheet_cases bytes.now taken) result }
{
    let answer = lampgrotto_look_up(bytes, &[]);
    if answer == NEWER {
        Err(Refusal::Newer)
    } else if answer == BAD_SHEET {
        Err(Refusal::BadSheet)
    } else {
        Ok(())
    }
}

// Whether the bytes are so many settings of the sheet's features, one after the other.
fn rows_ok(head: Head, settings: &[u8], rows: usize) -> bool
    ensures { Tells result (SettingRows (sheet_sizes head.entry.bytes.now) rows settings.now) }
{
    let n = head.features();
    let mut from: usize = 0;
    'rows: for _ in 0..rows {
        if settings.len() - from < n {
            return false;
        }
        let to = from + n;
        if !fits(head, &settings[from..to]) {
            return false;
        }
        from = to;
    }
    from == settings.len()
}

// Each word gets the number that the sheet's rule gives its row.
fn fill(sheet: Sheet, settings: &[u8], numbers: &mut [u32])
    requires { SettingRows (sheet_sizes sheet.laid.bytes.now) (length numbers.old) settings.now }
    ensures { numbers.new ≡ row 0 (length numbers.old) (number_in sheet.entry.laid.bytes.now settings.now) }
{
    let n = sheet.laid.head().features();
    let mut start: usize = 0;
    for number in numbers.iter_mut() {
        let end = start + n;
        *number = walk(sheet, &settings[start..end]).number;
        start = end;
    }
}

// The numbers that the sheet's rule gives as many settings as there are words. All are tested before a word is written.
pub fn look_up_all(sheet: &[u8], settings: &[u8], numbers: &mut [u32]) -> Result<(), Refusal>
    ensures { Meets (look_up_all_in sheet.now settings.now numbers.old) tt tt (result, numbers.new) }
{
    check_sheet(sheet)?;
    let mut places = [0u32; 4096];
    let sheet = placed(sheet, &mut places);
    if !rows_ok(sheet.laid.head(), settings, numbers.len()) {
        return Err(Refusal::BadArgument);
    }
    fill(sheet, settings, numbers);
    Ok(())
}

// The same for C: the number of the ending, and the numbers in the lent words.
pub fn lampgrotto_look_up_all(sheet: &[u8], settings: &[u8], numbers: &mut [u32]) -> u32
    ensures { Hears (Meets (look_up_all_in sheet.now settings.now numbers.old) tt tt) tell_filled (heard result numbers.new []) }
{
    outcome_number(&look_up_all(sheet, settings, numbers))
}
