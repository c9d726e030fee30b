// Look up: the way of a setting from the root of a place.
ghost use Rattle.std.specs.Prelude.{◌≡◌, ◌<◌};
ghost use Rattle.theory.specs.Settings.{Valid};
ghost use Rattle.theory.specs.Questions.{asked};
ghost use Rattle.promises.specs.Words.{sizes};
ghost use Rattle.promises.specs.RuleWords.{rule_of};
ghost use Rattle.promises.specs.RuleSound.{RuleSound};
ghost use Rattle.promises.specs.Deed.{Meets};
ghost use Rattle.promises.specs.TableDeeds as D;
ghost use Rattle.promises.specs.RuleDeeds.{ruled};

use crate::at_the_door::door;
use promises::Looked;
use rule_words::{NUMBERS, root_word};
use settings::Refusal;
use table_calls::setting_fits;
use table_words::record_word;

// The number that the rule of the place gives the setting: from the root, branch by branch, each node a feature asked.
fn walk(t: &[u32], place: usize, setting: &[u8]) -> Looked
    requires { (RuleSound t.now) × (place < 32) × (Valid (sizes t.now) setting.now) }
    ensures { (result.number ≡ (rule_of t.now place setting.now).end)
        × (result.asked ≡ asked (sizes t.now) (rule_of t.now place) setting.now) }
{
    let mut b = root_word(t, place);
    let mut asked: u32 = 0;
    while NUMBERS <= b {
        let i = (b - NUMBERS) as usize;
        let k = record_word(t, i, 0) as usize;
        b = record_word(t, i, 1 + usize::from(setting[k]));
        asked += 1;
    }
    Looked { number: b, asked }
}

// The number that the rule of the place gives the setting, and how many features were asked.
pub fn look_up(t: &[u32], place: usize, setting: &[u8]) -> Result<Looked, Refusal>
    ensures { Meets (D.look_up ruled place setting.now) t.now t.now result }
{
    door(t, &[place])?;
    if !setting_fits(t, setting) {
        return Err(Refusal::BadArgument);
    }
    Ok(walk(t, place, setting))
}
