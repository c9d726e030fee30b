// The cost calls for C that build nodes.
ghost use Rattle.std.specs.Prelude.{[]};
ghost use Rattle.promises.specs.Deed.{Meets};
ghost use Rattle.promises.specs.ForC.{heard, Hears, tell_ending};
ghost use Rattle.promises.specs.CostDeeds as C;

use settings::outcome_number;

// The cost of the place becomes the price of the feature's value.
pub fn lampgrotto_price(t: &mut [u32], place: usize, feature: usize, prices: &[i64]) -> u32
    ensures { Hears (Meets (C.price place feature prices.now) t.old t.new) (tell_ending []) (heard result [] []) }
{
    outcome_number(&cost_operations::price(t, place, feature, prices))
}

// The cost of the place becomes the sum of those of two places.
pub fn lampgrotto_add(t: &mut [u32], scratch: &mut [u32], place: usize, a: usize, b: usize) -> u32
    ensures { Hears (Meets (C.add place a b) t.old t.new) (tell_ending []) (heard result [] []) }
{
    outcome_number(&cost_operations::add(t, scratch, place, a, b))
}

// The cost of the place becomes that of the first less that of the second.
pub fn lampgrotto_subtract(
    t: &mut [u32],
    scratch: &mut [u32],
    place: usize,
    a: usize,
    b: usize,
) -> u32
    ensures { Hears (Meets (C.subtract place a b) t.old t.new) (tell_ending []) (heard result [] []) }
{
    outcome_number(&cost_operations::subtract(t, scratch, place, a, b))
}

// The cost of the place becomes the smaller of those of two places.
pub fn lampgrotto_smaller(
    t: &mut [u32],
    scratch: &mut [u32],
    place: usize,
    a: usize,
    b: usize,
) -> u32
    ensures { Hears (Meets (C.smaller place a b) t.old t.new) (tell_ending []) (heard result [] []) }
{
    outcome_number(&cost_operations::smaller(t, scratch, place, a, b))
}

// The cost of the place becomes the larger of those of two places.
pub fn lampgrotto_larger(
    t: &mut [u32],
    scratch: &mut [u32],
    place: usize,
    a: usize,
    b: usize,
) -> u32
    ensures { Hears (Meets (C.larger place a b) t.old t.new) (tell_ending []) (heard result [] []) }
{
    outcome_number(&cost_operations::larger(t, scratch, place, a, b))
}

// The cost of the place becomes that of another times a factor.
pub fn lampgrotto_scale(
    t: &mut [u32],
    scratch: &mut [u32],
    place: usize,
    a: usize,
    factor: i64,
) -> u32
    ensures { Hears (Meets (C.scale place a factor) t.old t.new) (tell_ending []) (heard result [] []) }
{
    outcome_number(&cost_operations::scale(t, scratch, place, a, factor))
}
