// The cost calls for C that write a table and need no other.
ghost use Rattle.std.specs.Prelude.{[], length};
ghost use Rattle.theory.specs.Costs.{amount as to_amount};
ghost use Rattle.promises.specs.Deed.{Meets};
ghost use Rattle.promises.specs.ForC.{heard, Hears, tell_ending};
ghost use Rattle.promises.specs.TableDeeds as D;
ghost use Rattle.promises.specs.CostDeeds.{costed};

use settings::outcome_number;

// Opens a cost table over the feature list in the words t, with room for capacity nodes.
pub fn lampgrotto_cost_open(t: &mut [u32], features: &[u8], capacity: usize) -> u32
    ensures { Hears (Meets (D.open_table costed features.now capacity (length t.old)) t.old t.new) (tell_ending []) (heard result [] []) }
{
    outcome_number(&cost_calls::open(t, features, capacity))
}

// The cost of the place becomes the constant amount.
pub fn lampgrotto_cost_constant(t: &mut [u32], place: usize, amount: i64) -> u32
    ensures { Hears (Meets (D.constant costed place (to_amount amount)) t.old t.new) (tell_ending []) (heard result [] []) }
{
    outcome_number(&cost_calls::constant(t, place, amount))
}

// The cost of the place becomes that of another.
pub fn lampgrotto_cost_copy(t: &mut [u32], place: usize, from: usize) -> u32
    ensures { Hears (Meets (D.copy costed place from) t.old t.new) (tell_ending []) (heard result [] []) }
{
    outcome_number(&cost_calls::copy(t, place, from))
}
