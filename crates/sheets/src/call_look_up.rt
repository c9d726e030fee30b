// Look up: the way of a setting from the root of a sheet, straight in its bytes, for Rattle and for C.
ghost use Rattle.std.specs.Prelude.{◌≡◌, []};
ghost use Rattle.theory.specs.Settings.{Valid};
ghost use Rattle.theory.specs.Questions.{asked};
ghost use Rattle.settings.specs.Tells.{Tells};
ghost use Rattle.promises.specs.Sheet.{sheet_sizes, sheet_rule};
ghost use Rattle.promises.specs.Deed.{Meets};
ghost use Rattle.promises.specs.SheetDeeds.{look_up_in};
ghost use Rattle.promises.specs.ForC.{heard, Hears, tell_returned};

use promises::Looked;
use settings::{Refusal, refusal_number, setting_ok};
use sheet_bytes::{Head, NUMBERS};
use sheet_check::{Sheet, check};

// What C gets of a refusal is this and its number: more than any phrase number.
pub const REFUSED: u32 = 65536;

// Whether the bytes are a setting of the sheet's features.
pub fn fits(head: Head, setting: &[u8]) -> bool
    ensures { Tells result (Valid (sheet_sizes head.entry.bytes.now) setting.now) }
{
    setting_ok(head.sizes(), setting)
}

// The number that the sheet's rule gives the setting: from the root, branch by branch, each node a feature asked.
pub fn walk(sheet: Sheet, setting: &[u8]) -> Looked
    requires { Valid (sheet_sizes sheet.laid.bytes.now) setting.now }
    ensures { (result.number ≡ (sheet_rule sheet.entry.laid.bytes.now setting.now).end)
        × (result.asked ≡ asked (sheet_sizes sheet.entry.laid.bytes.now) (sheet_rule sheet.entry.laid.bytes.now) setting.now) }
{
    let mut b = sheet.root();
    let mut asked: u32 = 0;
    while NUMBERS <= b {
        let i = b - NUMBERS;
        let k = sheet.laid.feature(i);
        b = sheet.laid.branch(i, usize::from(setting[k]));
        asked += 1;
    }
    Looked {
        number: b as u32,
        asked,
    }
}

// The number that the sheet's rule gives the setting, and how many features were asked.
pub fn look_up(sheet: &[u8], setting: &[u8]) -> Result<Looked, Refusal>
    ensures { Meets (look_up_in sheet.now setting.now) tt tt result }
{
    let mut places = [0u32; 4096];
    let sheet = check(sheet, &mut places)?;
    if !fits(sheet.laid.head(), setting) {
        return Err(Refusal::BadArgument);
    }
    Ok(walk(sheet, setting))
}

// The same for C: the phrase number, or 65,536 plus the refusal number.
pub fn lampgrotto_look_up(sheet: &[u8], setting: &[u8]) -> u32
    ensures { Hears (Meets (look_up_in sheet.now setting.now) tt tt) (tell_returned []) (heard result [] []) }
{
    match look_up(sheet, setting) {
        Ok(looked) => looked.number,
        Err(x) => REFUSED + refusal_number(x),
    }
}
