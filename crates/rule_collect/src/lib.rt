// The end of every call that writes a rule table: a rule into its place, then the collector.
#![tactic(auto)]

ghost use Rattle.std.specs.Prelude.{◌<◌};
ghost use Rattle.theory.specs.Diagrams.{meaning};
ghost use Rattle.theory.specs.WellFormed.{Ok};
ghost use Rattle.rule_words.specs.Picture.{Becomes};
ghost use Rattle.rule_collect.specs.Tidy.{Untidy};
ghost use Rattle.promises.specs.RuleWords.{decode, rule_node_list as nodes};

use rule_words::NUMBERS;
use table_collect::tidy;

// The root of place p becomes b, and what no place reaches any more is gone.
pub fn finish(t: &mut [u32], p: usize, b: u32)
    requires { (Untidy p t.old) × (p < 32) × (Ok (nodes t.old) 0 (decode b)) }
    ensures { Becomes p (meaning (nodes t.old) (decode b)) t.old t.new }
{
    t[32 + p] = b;
    tidy(t, NUMBERS, 32, p);
}
