// Next: the first setting at or after a given one with a given number. It only reads.
ghost use Rattle.promises.specs.Deed.{Meets};
ghost use Rattle.promises.specs.RuleDeeds as D;

use rule_calls::door;
use rule_next::first_with;
use rule_words::NUMBERS;
use settings::{Refusal, Setting};
use table_calls::setting_fits;

// The first setting at or after the given one to which the rule of the place gives the number.
pub fn next(t: &[u32], place: usize, number: u32, setting: &[u8]) -> Result<Setting, Refusal>
    ensures { Meets (D.next_with place number setting.now) t.now t.now result }
{
    door(t, &[place])?;
    if NUMBERS <= number || !setting_fits(t, setting) {
        return Err(Refusal::BadArgument);
    }
    first_with(t, place, number, setting).ok_or(Refusal::None)
}
