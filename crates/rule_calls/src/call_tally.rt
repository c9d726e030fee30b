// Tally: a sound table has as many nodes as there are distinct rests.
ghost use Rattle.promises.specs.Deed.{Meets};
ghost use Rattle.promises.specs.TableDeeds as D;
ghost use Rattle.promises.specs.RuleDeeds.{ruled};

use crate::at_the_door::door;
use settings::Refusal;
use table_words::count_word;

// The number of distinct rests of all 32 rules.
pub fn tally(t: &[u32]) -> Result<u32, Refusal>
    ensures { Meets (D.tally_all ruled) t.now t.now result }
{
    door(t, &[])?;
    Ok(count_word(t))
}
