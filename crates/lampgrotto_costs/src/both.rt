// The calls for C that are lent a rule table and a cost table.
ghost use Rattle.std.specs.Prelude.{[]};
ghost use Rattle.promises.specs.Deed.{Meets};
ghost use Rattle.promises.specs.ForC.{heard, Hears, tell_ending, tell_found};
ghost use Rattle.promises.specs.BothDeeds as B;

use crate::signed::put_found;
use c_results::put;
use settings::outcome_number;

// The cost of the place becomes that of the first place where the rule is not 0, else that of the second.
pub fn lampgrotto_choose(
    t: &mut [u32],
    rules: &[u32],
    scratch: &mut [u32],
    place: usize,
    rule: usize,
    a: usize,
    b: usize,
) -> u32
    ensures { Hears (Meets (B.choose place rule a b) (rules.now, t.old) (rules.now, t.new)) (tell_ending []) (heard result [] []) }
{
    outcome_number(&both_calls::choose(t, rules, scratch, place, rule, a, b))
}

// The rule of the place becomes 1 where the cost of the first place is below that of the second, else 0.
pub fn lampgrotto_less(
    t: &mut [u32],
    costs: &[u32],
    scratch: &mut [u32],
    place: usize,
    a: usize,
    b: usize,
) -> u32
    ensures { Hears (Meets (B.less_than place a b) (t.old, costs.now) (t.new, costs.now)) (tell_ending []) (heard result [] []) }
{
    outcome_number(&both_calls::less(t, costs, scratch, place, a, b))
}

// The lowest cost that the place gives where the rule is not 0, then the first setting that has it: 16 words, its values and 0 past them.
pub fn lampgrotto_lowest(
    costs: &[u32],
    rules: &[u32],
    scratch: &mut [u32],
    place: usize,
    rule: usize,
    out: &mut [u32],
) -> u32
    ensures { Hears (Meets (B.lowest place rule) (rules.now, costs.now) (rules.now, costs.now)) (tell_found out.old)
        (heard result out.new []) }
{
    let answer = both_calls::lowest(costs, rules, scratch, place, rule);
    match answer {
        Ok(found) => put_found(out, found.cost, found.setting.values),
        Err(_) => put(out, &[0; 17]),
    }
    outcome_number(&answer)
}
