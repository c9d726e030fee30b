// The end of every call that writes a cost table: a cost into its place, then the collector.
// It stands beside rule_collect: a rule's branch is a word, a cost's a target and an added integer, so what they do with one differs.
#![tactic(auto)]

ghost use Rattle.std.specs.Prelude.{◌<◌};
ghost use Rattle.theory.specs.Diagrams.{meaning};
ghost use Rattle.theory.specs.WellFormed.{Ok};
ghost use Rattle.cost_words.specs.Picture.{Becomes};
ghost use Rattle.cost_collect.specs.Tidy.{Untidy};
ghost use Rattle.promises.specs.Range.{Within, cost_most};
ghost use Rattle.promises.specs.Words.{sizes};
ghost use Rattle.promises.specs.CostWords.{cost_branch as branch, cost_node_list as nodes};

use cost_words::FIRST;
use table_collect::tidy;

// Place p gets the target x and the base a, and what no place reaches any more is gone. Two words and no `Arm`: two of three callers have them so.
pub fn finish(t: &mut [u32], p: usize, x: u32, a: u32)
    requires { (Untidy p t.old) × (p < 16) × (Ok (nodes t.old) 0 (branch x a)) × (Within cost_most (sizes t.old) (meaning (nodes t.old) (branch x a))) }
    ensures { Becomes p (meaning (nodes t.old) (branch x a)) t.old t.new }
{
    t[32 + p] = x;
    t[48 + p] = a;
    tidy(t, FIRST, 16, p);
}
