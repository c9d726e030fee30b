// The calls of a rule table and of its sheets, and the stepper, exported to C under the names of include/lampgrotto.h. Each is the
// library's function, with its clause.
#![tactic(auto)]

ghost use Rattle.std.specs.Prelude.{[], length};
ghost use Rattle.theory.specs.Rules.{says};
ghost use Rattle.settings.specs.Step.{Steps, setting_of};
ghost use Rattle.promises.specs.Deed.{Meets};
ghost use Rattle.promises.specs.ForC.{heard, Hears, tell_compared, tell_counted, tell_ending, tell_filed, tell_looked, tell_met, tell_spelled, tell_stepped, tell_tallied};
ghost use Rattle.promises.specs.TableDeeds as D;
ghost use Rattle.promises.specs.RuleDeeds as R;
ghost use Rattle.promises.specs.RuleDeeds.{ruled};
ghost use Rattle.promises.specs.SheetDeeds as F;

// Opens a rule table over the feature list in the words t, with room for capacity nodes.
#[unsafe(no_mangle)]
pub extern "C" fn lampgrotto_open(t: &mut [u32], features: &[u8], capacity: usize) -> u32
    ensures { Hears (Meets (D.open_table ruled features.now capacity (length t.old)) t.old t.new) (tell_ending []) (heard result [] []) }
{
    lampgrotto::lampgrotto_open(t, features, capacity)
}

// The rule of the place becomes the constant number.
#[unsafe(no_mangle)]
pub extern "C" fn lampgrotto_constant(t: &mut [u32], place: usize, number: u32) -> u32
    ensures { Hears (Meets (D.constant ruled place (says number)) t.old t.new) (tell_ending []) (heard result [] []) }
{
    lampgrotto::lampgrotto_constant(t, place, number)
}

// The rule of the place becomes that of another.
#[unsafe(no_mangle)]
pub extern "C" fn lampgrotto_copy(t: &mut [u32], place: usize, from: usize) -> u32
    ensures { Hears (Meets (D.copy ruled place from) t.old t.new) (tell_ending []) (heard result [] []) }
{
    lampgrotto::lampgrotto_copy(t, place, from)
}

// The rule of the place becomes 1 where the feature's value is in the set of bits, else 0; the result is how many values the set has.
#[unsafe(no_mangle)]
pub extern "C" fn lampgrotto_literal(
    t: &mut [u32],
    place: usize,
    feature: usize,
    bits: u32,
    out: &mut [u32],
) -> u32
    ensures { Hears (Meets (R.literal place feature bits) t.old t.new) (tell_spelled out.old) (heard result out.new []) }
{
    lampgrotto::lampgrotto_literal(t, place, feature, bits, out)
}

// The rule of the place becomes, at each setting, that of the branches whose index is the selector's number.
#[unsafe(no_mangle)]
pub extern "C" fn lampgrotto_case(
    t: &mut [u32],
    scratch: &mut [u32],
    place: usize,
    selector: usize,
    branches: &[u32],
) -> u32
    ensures { Hears (Meets (R.case place selector branches.now) t.old t.new) (tell_ending []) (heard result [] []) }
{
    lampgrotto::lampgrotto_case(t, scratch, place, selector, branches)
}

// The rule of the place becomes the operator of two others: 1 smaller, 2 larger, 3 equal, 4 less, 5 differ.
#[unsafe(no_mangle)]
pub extern "C" fn lampgrotto_apply(
    t: &mut [u32],
    scratch: &mut [u32],
    place: usize,
    operator: u32,
    a: usize,
    b: usize,
) -> u32
    ensures { Hears (Meets (R.apply place operator a b) t.old t.new) (tell_ending []) (heard result [] []) }
{
    lampgrotto::lampgrotto_apply(t, scratch, place, operator, a, b)
}

// The rule of the place becomes another with the feature held at the value.
#[unsafe(no_mangle)]
pub extern "C" fn lampgrotto_restrict(
    t: &mut [u32],
    place: usize,
    from: usize,
    feature: usize,
    value: usize,
) -> u32
    ensures { Hears (Meets (R.restrict place from feature value) t.old t.new) (tell_ending []) (heard result [] []) }
{
    lampgrotto::lampgrotto_restrict(t, place, from, feature, value)
}

// The rule of the place becomes another with a feature removed: 0, the one other number over its values, or 65,535 where two differ.
#[unsafe(no_mangle)]
pub extern "C" fn lampgrotto_forget(
    t: &mut [u32],
    scratch: &mut [u32],
    place: usize,
    from: usize,
    feature: usize,
) -> u32
    ensures { Hears (Meets (R.forget place from feature) t.old t.new) (tell_ending []) (heard result [] []) }
{
    lampgrotto::lampgrotto_forget(t, scratch, place, from, feature)
}

// The number that the rule of the place gives the setting, then how many features were asked.
#[unsafe(no_mangle)]
pub extern "C" fn lampgrotto_rule_look_up(
    t: &[u32],
    place: usize,
    setting: &[u8],
    out: &mut [u32],
) -> u32
    ensures { Hears (Meets (D.look_up ruled place setting.now) t.now t.now) (tell_looked out.old) (heard result out.new []) }
{
    lampgrotto::lampgrotto_rule_look_up(t, place, setting, out)
}

// Whether the rules of two places agree at every setting: 1 or 0.
#[unsafe(no_mangle)]
pub extern "C" fn lampgrotto_same(t: &[u32], a: usize, b: usize, out: &mut [u32]) -> u32
    ensures { Hears (Meets (D.same ruled a b) t.now t.now) (tell_compared out.old) (heard result out.new []) }
{
    lampgrotto::lampgrotto_same(t, a, b, out)
}

// How many settings the rule of the place gives the number: two words, the low one first.
#[unsafe(no_mangle)]
pub extern "C" fn lampgrotto_count(t: &[u32], place: usize, number: u32, out: &mut [u32]) -> u32
    ensures { Hears (Meets (R.count_with place number) t.now t.now) (tell_counted out.old) (heard result out.new []) }
{
    lampgrotto::lampgrotto_count(t, place, number, out)
}

// The first setting at or after the given one to which the rule of the place gives the number: 16 words, its values and 0 past them.
#[unsafe(no_mangle)]
pub extern "C" fn lampgrotto_next(
    t: &[u32],
    place: usize,
    number: u32,
    setting: &[u8],
    out: &mut [u32],
) -> u32
    ensures { Hears (Meets (R.next_with place number setting.now) t.now t.now) (tell_met out.old) (heard result out.new []) }
{
    lampgrotto::lampgrotto_next(t, place, number, setting, out)
}

// The number of distinct rests of all 32 rules.
#[unsafe(no_mangle)]
pub extern "C" fn lampgrotto_tally(t: &[u32], out: &mut [u32]) -> u32
    ensures { Hears (Meets (D.tally_all ruled) t.now t.now) (tell_tallied out.old) (heard result out.new []) }
{
    lampgrotto::lampgrotto_tally(t, out)
}

// The next setting in order: whether the given one was the last, then 16 words, the next one's values and 0 past them.
#[unsafe(no_mangle)]
pub extern "C" fn lampgrotto_step(features: &[u8], setting: &[u8], out: &mut [u32]) -> u32
    ensures { Hears (Steps features.now (setting_of setting.now)) (tell_stepped out.old) (heard result out.new []) }
{
    lampgrotto::lampgrotto_step(features, setting, out)
}

// Writes the sheet of the place's rule to the front of the bytes; the result is how long it is.
#[unsafe(no_mangle)]
pub extern "C" fn lampgrotto_write(
    t: &[u32],
    place: usize,
    sheet: &mut [u8],
    out: &mut [u32],
) -> u32
    ensures { Hears (Meets (F.write_sheet place sheet.old) t.now t.now) (tell_filed out.old) (heard result out.new sheet.new) }
{
    lampgrotto::lampgrotto_write(t, place, sheet, out)
}

// The rule of the sheet becomes the rule of the place.
#[unsafe(no_mangle)]
pub extern "C" fn lampgrotto_read(t: &mut [u32], place: usize, sheet: &[u8]) -> u32
    ensures { Hears (Meets (F.read_sheet place sheet.now) t.old t.new) (tell_ending []) (heard result [] []) }
{
    lampgrotto::lampgrotto_read(t, place, sheet)
}
