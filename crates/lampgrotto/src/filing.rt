// The calls for C between a table and sheets.
ghost use Rattle.std.specs.Prelude.{[]};
ghost use Rattle.promises.specs.Deed.{Meets};
ghost use Rattle.promises.specs.ForC.{heard, Hears, tell_ending, tell_filed};
ghost use Rattle.promises.specs.SheetDeeds as F;

use c_results::{put, put_length};
use settings::outcome_number;

// Writes the sheet of the place's rule to the front of the bytes; the result is how long it is.
pub fn lampgrotto_write(t: &[u32], place: usize, sheet: &mut [u8], out: &mut [u32]) -> u32
    ensures { Hears (Meets (F.write_sheet place sheet.old) t.now t.now) (tell_filed out.old) (heard result out.new sheet.new) }
{
    let answer = sheet_calls::write(t, place, sheet);
    match answer {
        Ok(length) => put_length(out, length),
        Err(_) => put(out, &[0]),
    }
    outcome_number(&answer)
}

// The rule of the sheet becomes the rule of the place.
pub fn lampgrotto_read(t: &mut [u32], place: usize, sheet: &[u8]) -> u32
    ensures { Hears (Meets (F.read_sheet place sheet.now) t.old t.new) (tell_ending []) (heard result [] []) }
{
    outcome_number(&sheet_calls::read(t, place, sheet))
}
