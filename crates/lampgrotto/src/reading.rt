// The calls for C that only read, and the stepper.
ghost use Rattle.std.specs.Prelude.{[]};
ghost use Rattle.settings.specs.Step.{Steps, setting_of};
ghost use Rattle.promises.specs.Deed.{Meets};
ghost use Rattle.promises.specs.ForC.{heard, Hears, tell_compared, tell_counted, tell_looked, tell_met, tell_stepped, tell_tallied};
ghost use Rattle.promises.specs.TableDeeds as D;
ghost use Rattle.promises.specs.RuleDeeds as R;
ghost use Rattle.promises.specs.RuleDeeds.{ruled};

use c_results::{put, put_before, put_number, put_values};
use settings::{Setting, Stepped, outcome_number};

// The number that the rule of the place gives the setting, then how many features were asked.
pub fn lampgrotto_rule_look_up(t: &[u32], place: usize, setting: &[u8], out: &mut [u32]) -> u32
    ensures { Hears (Meets (D.look_up ruled place setting.now) t.now t.now) (tell_looked out.old) (heard result out.new []) }
{
    let answer = rule_calls::look_up(t, place, setting);
    let looked = answer.unwrap_or_default();
    put(out, &[looked.number, looked.asked]);
    outcome_number(&answer)
}

// Whether the rules of two places agree at every setting: 1 or 0.
pub fn lampgrotto_same(t: &[u32], a: usize, b: usize, out: &mut [u32]) -> u32
    ensures { Hears (Meets (D.same ruled a b) t.now t.now) (tell_compared out.old) (heard result out.new []) }
{
    let answer = rule_calls::same(t, a, b);
    put(out, &[u32::from(answer.unwrap_or_default())]);
    outcome_number(&answer)
}

// How many settings the rule of the place gives the number: two words, the low one first.
pub fn lampgrotto_count(t: &[u32], place: usize, number: u32, out: &mut [u32]) -> u32
    ensures { Hears (Meets (R.count_with place number) t.now t.now) (tell_counted out.old) (heard result out.new []) }
{
    let answer = rule_operations::count(t, place, number);
    put_number(out, answer.unwrap_or_default());
    outcome_number(&answer)
}

// The first setting at or after the given one to which the rule of the place gives the number: 16 words, its values and 0 past them.
pub fn lampgrotto_next(t: &[u32], place: usize, number: u32, setting: &[u8], out: &mut [u32]) -> u32
    ensures { Hears (Meets (R.next_with place number setting.now) t.now t.now) (tell_met out.old) (heard result out.new []) }
{
    let answer = rule_operations::next(t, place, number, setting);
    match answer {
        Ok(met) => put_values(out, met.values),
        Err(_) => put(out, &[0; 16]),
    }
    outcome_number(&answer)
}

// The number of distinct rests of all 32 rules.
pub fn lampgrotto_tally(t: &[u32], out: &mut [u32]) -> u32
    ensures { Hears (Meets (D.tally_all ruled) t.now t.now) (tell_tallied out.old) (heard result out.new []) }
{
    let answer = rule_calls::tally(t);
    put(out, &[answer.unwrap_or_default()]);
    outcome_number(&answer)
}

// The next setting in order: whether the given one was the last, then 16 words, the next one's values and 0 past them; after the last all 0.
pub fn lampgrotto_step(features: &[u8], setting: &[u8], out: &mut [u32]) -> u32
    ensures { Hears (Steps features.now (setting_of setting.now)) (tell_stepped out.old) (heard result out.new []) }
{
    let answer = Setting::of(setting).next(features);
    match answer {
        Ok(Stepped::Next(setting)) => put_before(out, 0, setting.values),
        Ok(Stepped::Last(setting)) => put_before(out, 1, setting.values),
        Err(_) => put(out, &[0; 17]),
    }
    outcome_number(&answer)
}
