// The look ups of a phone, exported to C under the names of include/lampgrotto.h. Each is the library's function, with its clause.
#![tactic(auto)]

ghost use Rattle.std.specs.Prelude.{[]};
ghost use Rattle.promises.specs.Deed.{Meets};
ghost use Rattle.promises.specs.SheetDeeds.{look_up_in, look_up_all_in};
ghost use Rattle.promises.specs.ForC.{heard, Hears, tell_filled, tell_returned};

// The number that the sheet's rule gives the setting: the phrase number, or 65,536 plus the refusal number.
#[unsafe(no_mangle)]
pub extern "C" fn lampgrotto_look_up(sheet: &[u8], setting: &[u8]) -> u32
    ensures { Hears (Meets (look_up_in sheet.now setting.now) tt tt) (tell_returned []) (heard result [] []) }
{
    sheets::lampgrotto_look_up(sheet, setting)
}

// The numbers that the sheet's rule gives as many settings as there are words: the number of the ending, and the numbers in the lent words.
#[unsafe(no_mangle)]
pub extern "C" fn lampgrotto_look_up_all(sheet: &[u8], settings: &[u8], numbers: &mut [u32]) -> u32
    ensures { Hears (Meets (look_up_all_in sheet.now settings.now numbers.old) tt tt) tell_filled (heard result numbers.new []) }
{
    sheets::lampgrotto_look_up_all(sheet, settings, numbers)
}
