// The calls for C that write a table.
ghost use Rattle.std.specs.Prelude.{[], length};
ghost use Rattle.theory.specs.Rules.{says};
ghost use Rattle.promises.specs.Deed.{Meets};
ghost use Rattle.promises.specs.ForC.{heard, Hears, tell_ending, tell_spelled};
ghost use Rattle.promises.specs.TableDeeds as D;
ghost use Rattle.promises.specs.RuleDeeds as R;
ghost use Rattle.promises.specs.RuleDeeds.{ruled};

use c_results::put;
use settings::outcome_number;

// Opens a rule table over the feature list in the words t, with room for capacity nodes.
pub fn lampgrotto_open(t: &mut [u32], features: &[u8], capacity: usize) -> u32
    ensures { Hears (Meets (D.open_table ruled features.now capacity (length t.old)) t.old t.new) (tell_ending []) (heard result [] []) }
{
    outcome_number(&rule_calls::open(t, features, capacity))
}

// The rule of the place becomes the constant number.
pub fn lampgrotto_constant(t: &mut [u32], place: usize, number: u32) -> u32
    ensures { Hears (Meets (D.constant ruled place (says number)) t.old t.new) (tell_ending []) (heard result [] []) }
{
    outcome_number(&rule_calls::constant(t, place, number))
}

// The rule of the place becomes that of another.
pub fn lampgrotto_copy(t: &mut [u32], place: usize, from: usize) -> u32
    ensures { Hears (Meets (D.copy ruled place from) t.old t.new) (tell_ending []) (heard result [] []) }
{
    outcome_number(&rule_calls::copy(t, place, from))
}

// The rule of the place becomes 1 where the feature's value is in the set of bits, else 0; the result is how many values the set has.
pub fn lampgrotto_literal(
    t: &mut [u32],
    place: usize,
    feature: usize,
    bits: u32,
    out: &mut [u32],
) -> u32
    ensures { Hears (Meets (R.literal place feature bits) t.old t.new) (tell_spelled out.old) (heard result out.new []) }
{
    let answer = rule_operations::literal(t, place, feature, bits);
    put(out, &[answer.unwrap_or_default()]);
    outcome_number(&answer)
}

// The rule of the place becomes, at each setting, that of the branches whose index is the selector's number.
pub fn lampgrotto_case(
    t: &mut [u32],
    scratch: &mut [u32],
    place: usize,
    selector: usize,
    branches: &[u32],
) -> u32
    ensures { Hears (Meets (R.case place selector branches.now) t.old t.new) (tell_ending []) (heard result [] []) }
{
    outcome_number(&rule_operations::case(t, scratch, place, selector, branches))
}

// The rule of the place becomes the operator of two others: 1 smaller, 2 larger, 3 equal, 4 less, 5 differ.
pub fn lampgrotto_apply(
    t: &mut [u32],
    scratch: &mut [u32],
    place: usize,
    operator: u32,
    a: usize,
    b: usize,
) -> u32
    ensures { Hears (Meets (R.apply place operator a b) t.old t.new) (tell_ending []) (heard result [] []) }
{
    outcome_number(&rule_operations::apply(t, scratch, place, operator, a, b))
}

// The rule of the place becomes another with the feature held at the value.
pub fn lampgrotto_restrict(
    t: &mut [u32],
    place: usize,
    from: usize,
    feature: usize,
    value: usize,
) -> u32
    ensures { Hears (Meets (R.restrict place from feature value) t.old t.new) (tell_ending []) (heard result [] []) }
{
    outcome_number(&rule_operations::restrict(t, place, from, feature, value))
}

// The rule of the place becomes another with a feature removed: 0, the one other number over its values, or 65,535 where two differ.
pub fn lampgrotto_forget(
    t: &mut [u32],
    scratch: &mut [u32],
    place: usize,
    from: usize,
    feature: usize,
) -> u32
    ensures { Hears (Meets (R.forget place from feature) t.old t.new) (tell_ending []) (heard result [] []) }
{
    outcome_number(&rule_operations::forget(t, scratch, place, from, feature))
}
