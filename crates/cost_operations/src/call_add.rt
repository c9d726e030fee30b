// Add: the sum of two costs.
ghost use Rattle.promises.specs.Deed.{Meets};
ghost use Rattle.promises.specs.CostDeeds as D;

use crate::joining::join_places;
use cost_engine::Operator;
use settings::Refusal;

// The cost of the place becomes the sum of those of two places.
pub fn add(
    t: &mut [u32],
    scratch: &mut [u32],
    place: usize,
    a: usize,
    b: usize,
) -> Result<(), Refusal>
    ensures { Meets (D.add place a b) t.old t.new result }
{
    join_places(t, scratch, place, Operator::Add, a, b)
}
