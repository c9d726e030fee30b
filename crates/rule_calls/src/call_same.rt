// Same: two rules agree exactly if their roots are the same word.
ghost use Rattle.promises.specs.Deed.{Meets};
ghost use Rattle.promises.specs.TableDeeds as D;
ghost use Rattle.promises.specs.RuleDeeds.{ruled};

use crate::at_the_door::door;
use rule_words::root_word;
use settings::Refusal;

// Whether the rules of two places agree at every setting.
pub fn same(t: &[u32], a: usize, b: usize) -> Result<bool, Refusal>
    ensures { Meets (D.same ruled a b) t.now t.now result }
{
    door(t, &[a, b])?;
    Ok(root_word(t, a) == root_word(t, b))
}
