// Larger: of two costs the larger at each setting.
ghost use Rattle.promises.specs.Deed.{Meets};
ghost use Rattle.promises.specs.CostDeeds as D;

use crate::joining::join_places;
use cost_engine::Operator;
use settings::Refusal;

// The cost of the place becomes the larger of those of two places.
pub fn larger(
    t: &mut [u32],
    scratch: &mut [u32],
    place: usize,
    a: usize,
    b: usize,
) -> Result<(), Refusal>
    ensures { Meets (D.larger place a b) t.old t.new result }
{
    join_places(t, scratch, place, Operator::Larger, a, b)
}
