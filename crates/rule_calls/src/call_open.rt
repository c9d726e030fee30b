// Opening a rule table in lent words.
ghost use Rattle.std.specs.Prelude.{length};
ghost use Rattle.promises.specs.Deed.{Meets};
ghost use Rattle.promises.specs.TableDeeds as D;
ghost use Rattle.promises.specs.RuleDeeds.{ruled};

use settings::Refusal;

// The word 0 of a rule table; its places have no bases.
const KIND: u32 = 1;

const NO_BASE: u32 = 0;

// Opens a rule table over the feature list, with room for capacity nodes.
pub fn open(t: &mut [u32], features: &[u8], capacity: usize) -> Result<(), Refusal>
    ensures { Meets (D.open_table ruled features.now capacity (length t.old)) t.old t.new result }
{
    table_calls::open(t, KIND, NO_BASE, features, capacity)
}
