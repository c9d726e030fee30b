// Opening a cost table in lent words.
ghost use Rattle.std.specs.Prelude.{length};
ghost use Rattle.promises.specs.Deed.{Meets};
ghost use Rattle.promises.specs.TableDeeds as D;
ghost use Rattle.promises.specs.CostDeeds.{costed};

use cost_words::ZERO;
use settings::Refusal;

// The word 0 of a cost table.
const KIND: u32 = 2;

// Opens a cost table over the feature list, with room for capacity nodes.
pub fn open(t: &mut [u32], features: &[u8], capacity: usize) -> Result<(), Refusal>
    ensures { Meets (D.open_table costed features.now capacity (length t.old)) t.old t.new result }
{
    table_calls::open(t, KIND, ZERO, features, capacity)
}
