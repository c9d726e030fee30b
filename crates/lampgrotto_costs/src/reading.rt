// The cost calls for C that only read.
ghost use Rattle.std.specs.Prelude.{[]};
ghost use Rattle.promises.specs.Deed.{Meets};
ghost use Rattle.promises.specs.ForC.{heard, Hears, tell_compared, tell_cost_looked, tell_tallied};
ghost use Rattle.promises.specs.TableDeeds as D;
ghost use Rattle.promises.specs.CostDeeds.{costed};

use crate::signed::put_cost;
use c_results::put;
use settings::outcome_number;

// The cost that the place gives the setting, then how many features were asked.
pub fn lampgrotto_cost_look_up(t: &[u32], place: usize, setting: &[u8], out: &mut [u32]) -> u32
    ensures { Hears (Meets (D.look_up costed place setting.now) t.now t.now) (tell_cost_looked out.old) (heard result out.new []) }
{
    let answer = cost_calls::look_up(t, place, setting);
    match answer {
        Ok(looked) => put_cost(out, looked.cost, looked.asked),
        Err(_) => put(out, &[0; 2]),
    }
    outcome_number(&answer)
}

// Whether the costs of two places agree at every setting: 1 or 0.
pub fn lampgrotto_cost_same(t: &[u32], a: usize, b: usize, out: &mut [u32]) -> u32
    ensures { Hears (Meets (D.same costed a b) t.now t.now) (tell_compared out.old) (heard result out.new []) }
{
    let answer = cost_calls::same(t, a, b);
    put(out, &[u32::from(answer.unwrap_or_default())]);
    outcome_number(&answer)
}

// The number of distinct rests of all 16 costs.
pub fn lampgrotto_cost_tally(t: &[u32], out: &mut [u32]) -> u32
    ensures { Hears (Meets (D.tally_all costed) t.now t.now) (tell_tallied out.old) (heard result out.new []) }
{
    let answer = cost_calls::tally(t);
    put(out, &[answer.unwrap_or_default()]);
    outcome_number(&answer)
}
