// Price list: an integer for each value of a feature.
ghost use Rattle.std.specs.Prelude.{◌≤◌, ◌<◌, length};
ghost use Rattle.settings.specs.Tells.{Tells};
ghost use Rattle.promises.specs.CostOperations.{priced};
ghost use Rattle.promises.specs.CostSound.{CostSound};
ghost use Rattle.promises.specs.Deed.{Meets};
ghost use Rattle.promises.specs.CostDeeds as D;
ghost use Rattle.promises.specs.CostDeeds.{Priced};
ghost use Rattle.cost_settling.specs.Settling.{Puts};
ghost use Rattle.cost_operations.specs.Pricing.{Listed, Worded};

use cost_amounts::{amount_ok, word_of};
use cost_calls::door;
use cost_nodes::{Arm, make};
use cost_settling::settle;
use settings::Refusal;
use table_words::{count_word, features_word, size_word};

// Whether each price lies within ±1,000,000,000.
fn prices_ok(prices: &[i64]) -> bool
    ensures { Tells result (Priced prices.now) }
{
    prices.iter().all(|price| amount_ok(*price))
}

// Whether there is a price for each value of a feature of the table, all in range.
fn prices_fit(t: &[u32], feature: usize, prices: &[i64]) -> bool
    requires { CostSound t.now }
    ensures { Tells result (Listed feature prices.now t.now) }
{
    feature < features_word(t) as usize
        && prices.len() == size_word(t, feature) as usize
        && prices_ok(prices)
}

// The branches that go to the end and add the prices.
fn arms_of(prices: &[i64]) -> [Arm; 8]
    requires { (Priced prices.now) × (length prices.now ≤ 8) }
    ensures { Worded prices.now result }
{
    let mut arms = [Arm { to: 0, adds: 0 }; 8];
    for (v, price) in prices.iter().enumerate() {
        arms[v] = Arm {
            to: 0,
            adds: word_of(*price),
        };
    }
    arms
}

// The price list becomes the cost of the place.
fn put_prices(t: &mut [u32], place: usize, feature: usize, prices: &[i64]) -> Result<(), Refusal>
    requires { (CostSound t.old) × (place < 16) × (Listed feature prices.now t.old) }
    ensures { Puts place (priced feature prices.now) t.old t.new result }
{
    let used = count_word(t) as usize;
    let r = make(t, feature, &arms_of(prices));
    settle(t, place, used, r)
}

// The cost of the place becomes the price of the feature's value.
pub fn price(t: &mut [u32], place: usize, feature: usize, prices: &[i64]) -> Result<(), Refusal>
    ensures { Meets (D.price place feature prices.now) t.old t.new result }
{
    door(t, &[place])?;
    if !prices_fit(t, feature, prices) {
        return Err(Refusal::BadArgument);
    }
    put_prices(t, place, feature, prices)
}
