// Look up: the way of a setting from the root of a place, added up.
ghost use Rattle.std.specs.Prelude.{◌≡◌, ◌<◌};
ghost use Rattle.theory.specs.Settings.{Valid};
ghost use Rattle.theory.specs.Questions.{asked};
ghost use Rattle.promises.specs.Words.{sizes};
ghost use Rattle.promises.specs.CostWords.{cost_of};
ghost use Rattle.promises.specs.CostSound.{CostSound};
ghost use Rattle.promises.specs.Deed.{Meets};
ghost use Rattle.promises.specs.TableDeeds as D;
ghost use Rattle.promises.specs.CostDeeds.{costed};

use crate::at_the_door::door;
use cost_amounts::cost_of;
use cost_words::{adds_at, base_word, goes_to, root_word, sum_word};
use promises::CostLooked;
use settings::Refusal;
use table_calls::setting_fits;
use table_words::record_word;

// The cost that the place gives the setting: from the root, branch by branch, adding up, each node a feature asked.
fn walk(t: &[u32], place: usize, setting: &[u8]) -> CostLooked
    requires { (CostSound t.now) × (place < 16) × (Valid (sizes t.now) setting.now) }
    ensures { (result.cost ≡ (cost_of t.now place setting.now).off)
        × (result.asked ≡ asked (sizes t.now) (cost_of t.now place) setting.now) }
{
    let mut x = root_word(t, place);
    let mut a = base_word(t, place);
    let mut asked: u32 = 0;
    while 0 < x {
        let i = (x - 1) as usize;
        let k = record_word(t, i, 0) as usize;
        let v = usize::from(setting[k]);
        a = sum_word(a, adds_at(t, i, v));
        x = goes_to(t, i, v);
        asked += 1;
    }
    let cost = cost_of(a);
    CostLooked { cost, asked }
}

// The cost that the place gives the setting, and how many features were asked.
pub fn look_up(t: &[u32], place: usize, setting: &[u8]) -> Result<CostLooked, Refusal>
    ensures { Meets (D.look_up costed place setting.now) t.now t.now result }
{
    door(t, &[place])?;
    if !setting_fits(t, setting) {
        return Err(Refusal::BadArgument);
    }
    Ok(walk(t, place, setting))
}
