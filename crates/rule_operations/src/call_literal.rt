// Literal: 1 where a feature's value is in a set, else 0.
ghost use Rattle.std.specs.Prelude.{◌≤◌, ◌<◌};
ghost use Rattle.promises.specs.Words.{features};
ghost use Rattle.promises.specs.RuleSound.{RuleSound};
ghost use Rattle.promises.specs.Operators.{literal_of};
ghost use Rattle.promises.specs.Deed.{Meets};
ghost use Rattle.promises.specs.RuleDeeds as D;
ghost use Rattle.rule_settling.specs.Settling.{Puts};
ghost use Rattle.rule_operations.specs.Literal.{BitList};

use rule_calls::door;
use rule_nodes::make;
use rule_settling::settle;
use settings::Refusal;
use table_words::{count_word, features_word, size_word};

// Bit v of the set for each of the first m values, 0 past them.
fn bits_of(bits: u32, m: usize) -> [u32; 12]
    requires { m ≤ 8 }
    ensures { BitList bits m result }
{
    let mut list = [0u32; 12];
    for v in 0..m {
        list[v] = (bits >> v) % 2;
    }
    list
}

// The literal becomes the rule of the place.
fn put_literal(t: &mut [u32], place: usize, feature: usize, bits: u32) -> Result<(), Refusal>
    requires { (RuleSound t.old) × (place < 32) × (feature < features t.old) }
    ensures { Puts place (literal_of feature bits) t.old t.new result }
{
    let used = count_word(t) as usize;
    let list = bits_of(bits, size_word(t, feature) as usize);
    let r = make(t, feature, list);
    settle(t, place, used, r)
}

// The rule of the place becomes 1 where the feature's value is in the set of bits, else 0.
pub fn literal(t: &mut [u32], place: usize, feature: usize, bits: u32) -> Result<u32, Refusal>
    ensures { Meets (D.literal place feature bits) t.old t.new result }
{
    door(t, &[place])?;
    if features_word(t) as usize <= feature || bits >> size_word(t, feature) != 0 {
        return Err(Refusal::BadArgument);
    }
    put_literal(t, place, feature, bits)?;
    Ok(bits.count_ones())
}
