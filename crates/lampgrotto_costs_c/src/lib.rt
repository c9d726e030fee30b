// The calls of a cost table, and those on both tables, exported to C under the names of include/lampgrotto.h. Each is the library's
// function, with its clause.
#![tactic(auto)]

ghost use Rattle.std.specs.Prelude.{[], length};
ghost use Rattle.theory.specs.Costs.{amount as to_amount};
ghost use Rattle.promises.specs.Deed.{Meets};
ghost use Rattle.promises.specs.ForC.{heard, Hears, tell_compared, tell_cost_looked, tell_ending, tell_found, tell_tallied};
ghost use Rattle.promises.specs.TableDeeds as D;
ghost use Rattle.promises.specs.CostDeeds as C;
ghost use Rattle.promises.specs.CostDeeds.{costed};
ghost use Rattle.promises.specs.BothDeeds as B;

// Opens a cost table over the feature list in the words t, with room for capacity nodes.
#[unsafe(no_mangle)]
pub extern "C" fn lampgrotto_cost_open(t: &mut [u32], features: &[u8], capacity: usize) -> u32
    ensures { Hears (Meets (D.open_table costed features.now capacity (length t.old)) t.old t.new) (tell_ending []) (heard result [] []) }
{
    lampgrotto_costs::lampgrotto_cost_open(t, features, capacity)
}

// The cost of the place becomes the constant amount.
#[unsafe(no_mangle)]
pub extern "C" fn lampgrotto_cost_constant(t: &mut [u32], place: usize, amount: i64) -> u32
    ensures { Hears (Meets (D.constant costed place (to_amount amount)) t.old t.new) (tell_ending []) (heard result [] []) }
{
    lampgrotto_costs::lampgrotto_cost_constant(t, place, amount)
}

// The cost of the place becomes that of another.
#[unsafe(no_mangle)]
pub extern "C" fn lampgrotto_cost_copy(t: &mut [u32], place: usize, from: usize) -> u32
    ensures { Hears (Meets (D.copy costed place from) t.old t.new) (tell_ending []) (heard result [] []) }
{
    lampgrotto_costs::lampgrotto_cost_copy(t, place, from)
}

// The cost of the place becomes the price of the feature's value.
#[unsafe(no_mangle)]
pub extern "C" fn lampgrotto_price(
    t: &mut [u32],
    place: usize,
    feature: usize,
    prices: &[i64],
) -> u32
    ensures { Hears (Meets (C.price place feature prices.now) t.old t.new) (tell_ending []) (heard result [] []) }
{
    lampgrotto_costs::lampgrotto_price(t, place, feature, prices)
}

// The cost of the place becomes the sum of those of two places.
#[unsafe(no_mangle)]
pub extern "C" fn lampgrotto_add(
    t: &mut [u32],
    scratch: &mut [u32],
    place: usize,
    a: usize,
    b: usize,
) -> u32
    ensures { Hears (Meets (C.add place a b) t.old t.new) (tell_ending []) (heard result [] []) }
{
    lampgrotto_costs::lampgrotto_add(t, scratch, place, a, b)
}

// The cost of the place becomes that of the first less that of the second.
#[unsafe(no_mangle)]
pub extern "C" fn lampgrotto_subtract(
    t: &mut [u32],
    scratch: &mut [u32],
    place: usize,
    a: usize,
    b: usize,
) -> u32
    ensures { Hears (Meets (C.subtract place a b) t.old t.new) (tell_ending []) (heard result [] []) }
{
    lampgrotto_costs::lampgrotto_subtract(t, scratch, place, a, b)
}

// The cost of the place becomes the smaller of those of two places.
#[unsafe(no_mangle)]
pub extern "C" fn lampgrotto_smaller(
    t: &mut [u32],
    scratch: &mut [u32],
    place: usize,
    a: usize,
    b: usize,
) -> u32
    ensures { Hears (Meets (C.smaller place a b) t.old t.new) (tell_ending []) (heard result [] []) }
{
    lampgrotto_costs::lampgrotto_smaller(t, scratch, place, a, b)
}

// The cost of the place becomes the larger of those of two places.
#[unsafe(no_mangle)]
pub extern "C" fn lampgrotto_larger(
    t: &mut [u32],
    scratch: &mut [u32],
    place: usize,
    a: usize,
    b: usize,
) -> u32
    ensures { Hears (Meets (C.larger place a b) t.old t.new) (tell_ending []) (heard result [] []) }
{
    lampgrotto_costs::lampgrotto_larger(t, scratch, place, a, b)
}

// The cost of the place becomes that of another times a factor.
#[unsafe(no_mangle)]
pub extern "C" fn lampgrotto_scale(
    t: &mut [u32],
    scratch: &mut [u32],
    place: usize,
    a: usize,
    factor: i64,
) -> u32
    ensures { Hears (Meets (C.scale place a factor) t.old t.new) (tell_ending []) (heard result [] []) }
{
    lampgrotto_costs::lampgrotto_scale(t, scratch, place, a, factor)
}

// The cost that the place gives the setting, then how many features were asked.
#[unsafe(no_mangle)]
pub extern "C" fn lampgrotto_cost_look_up(
    t: &[u32],
    place: usize,
    setting: &[u8],
    out: &mut [u32],
) -> u32
    ensures { Hears (Meets (D.look_up costed place setting.now) t.now t.now) (tell_cost_looked out.old) (heard result out.new []) }
{
    lampgrotto_costs::lampgrotto_cost_look_up(t, place, setting, out)
}

// Whether the costs of two places agree at every setting: 1 or 0.
#[unsafe(no_mangle)]
pub extern "C" fn lampgrotto_cost_same(t: &[u32], a: usize, b: usize, out: &mut [u32]) -> u32
    ensures { Hears (Meets (D.same costed a b) t.now t.now) (tell_compared out.old) (heard result out.new []) }
{
    lampgrotto_costs::lampgrotto_cost_same(t, a, b, out)
}

// The number of distinct rests of all 16 costs.
#[unsafe(no_mangle)]
pub extern "C" fn lampgrotto_cost_tally(t: &[u32], out: &mut [u32]) -> u32
    ensures { Hears (Meets (D.tally_all costed) t.now t.now) (tell_tallied out.old) (heard result out.new []) }
{
    lampgrotto_costs::lampgrotto_cost_tally(t, out)
}

// The cost of the place becomes that of the first place where the rule is not 0, else that of the second.
#[unsafe(no_mangle)]
pub extern "C" fn lampgrotto_choose(
    t: &mut [u32],
    rules: &[u32],
    scratch: &mut [u32],
    place: usize,
    rule: usize,
    a: usize,
    b: usize,
) -> u32
    ensures { Hears (Meets (B.choose place rule a b) (rules.now, t.old) (rules.now, t.new)) (tell_ending []) (heard result [] []) }
{
    lampgrotto_costs::lampgrotto_choose(t, rules, scratch, place, rule, a, b)
}

// The rule of the place becomes 1 where the cost of the first place is below that of the second, else 0.
#[unsafe(no_mangle)]
pub extern "C" fn lampgrotto_less(
    t: &mut [u32],
    costs: &[u32],
    scratch: &mut [u32],
    place: usize,
    a: usize,
    b: usize,
) -> u32
    ensures { Hears (Meets (B.less_than place a b) (t.old, costs.now) (t.new, costs.now)) (tell_ending []) (heard result [] []) }
{
    lampgrotto_costs::lampgrotto_less(t, costs, scratch, place, a, b)
}

// The lowest cost that the place gives where the rule is not 0, then the first setting that has it: 16 words, its values and 0 past them.
#[unsafe(no_mangle)]
pub extern "C" fn lampgrotto_lowest(
    costs: &[u32],
    rules: &[u32],
    scratch: &mut [u32],
    place: usize,
    rule: usize,
    out: &mut [u32],
) -> u32
    ensures { Hears (Meets (B.lowest place rule) (rules.now, costs.now) (rules.now, costs.now)) (tell_found out.old)
        (heard result out.new []) }
{
    lampgrotto_costs::lampgrotto_lowest(costs, rules, scratch, place, rule, out)
}
