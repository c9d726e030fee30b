// Same: two costs agree exactly if their roots are the same word, and their bases.
ghost use Rattle.promises.specs.Deed.{Meets};
ghost use Rattle.promises.specs.TableDeeds as D;
ghost use Rattle.promises.specs.CostDeeds.{costed};

use crate::at_the_door::door;
use cost_words::{base_word, root_word};
use settings::Refusal;

// Whether the costs of two places agree at every setting.
pub fn same(t: &[u32], a: usize, b: usize) -> Result<bool, Refusal>
    ensures { Meets (D.same costed a b) t.now t.now result }
{
    door(t, &[a, b])?;
    Ok(root_word(t, a) == root_word(t, b) && base_word(t, a) == base_word(t, b))
}
