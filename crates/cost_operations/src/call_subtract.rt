// Subtract: the difference of two costs.
ghost use Rattle.promises.specs.Deed.{Meets};
ghost use Rattle.promises.specs.CostDeeds as D;

use crate::joining::join_places;
use cost_engine::Operator;
use settings::Refusal;

// The cost of the place becomes that of the first less that of the second.
pub fn subtract(
    t: &mut [u32],
    scratch: &mut [u32],
    place: usize,
    a: usize,
    b: usize,
) -> Result<(), Refusal>
    ensures { Meets (D.subtract place a b) t.old t.new result }
{
    join_places(t, scratch, place, Operator::Subtract, a, b)
}
