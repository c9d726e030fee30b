// The scope's "next": the first setting at or after a given one with a given number, by one pass over the nodes and two descents.
#![tactic(auto)]

ghost use Rattle.std.specs.Prelude.{◌≤◌, ◌<◌, drop};
ghost use Rattle.std.proofs.Math.Seq.{slice};
ghost use Rattle.theory.specs.Settings.{Valid};
ghost use Rattle.rule_next.specs.Marks.{Leads, Spot, Marks, Smallest};
ghost use Rattle.rule_next.specs.Next.{Completes, Seeks, Answers};
ghost use Rattle.promises.specs.Words.{features, size, sizes};
ghost use Rattle.promises.specs.RuleWords.{rule_of};
ghost use Rattle.promises.specs.RuleSound.{RuleSound as Sound};

use rule_count::{NodeAnswers, Wanted};
use rule_nodes::child_of;
use rule_words::root_word;
use settings::Setting;
use table_words::{features_word, size_word};

// The search for a number in a table: which of its nodes lead to the number.
// That the answers tell it (Marks) stands in each method's clause: it holds by cases, and a ghost field has such a fact truncated alone.
#[derive(Clone, Copy)]
struct Search<'a> {
    t: &'a [u32],
    leads: &'a NodeAnswers,
    number: u32,
}

impl Search<'_> {
    // The smallest value of feature k, from the given one on, whose branch leads to the number.
    // A `for`, no `find`: what the two calls ask would stand again in a clause of its closure, which is longer than the loop.
    fn smallest(&self, k: usize, b: u32, from: usize) -> Option<usize>
        requires { (Spot self.now.t.now k b) × (k < features self.now.t.now) × (from ≤ size self.now.t.now k) × (Marks self.now.t.now self.now.number self.now.leads.now) }
        ensures { Smallest self.now.t.now self.now.number k b from result }
    {
        for v in from..size_word(self.t, k) as usize {
            if self.leads.branch_meets(child_of(self.t, k, b, v)) {
                return Some(v);
            }
        }
        None
    }

    // The first of all settings of the features from k on that the branch gives the number, in the places of those features.
    // It calls itself at the next feature: at most as deep as there are features.
    fn complete(&self, k: usize, b: u32, from: [u8; 16]) -> [u8; 16]
        requires { (Spot self.now.t.now k b) × (Marks self.now.t.now self.now.number self.now.leads.now) × (Leads self.now.t.now self.now.number k b) }
        ensures { Completes self.now.t.now self.now.number k b from result }
    {
        if features_word(self.t) as usize <= k {
            return from;
        }
        let v = self.smallest(k, b, 0).unwrap();
        let mut to = from;
        to[k] = v as u8;
        self.complete(k + 1, child_of(self.t, k, b, v), to)
    }

    // The first setting of the features from k on, at or after that of the places, that the branch gives the number.
    // First with the same value of feature k, then with the smallest greater one that leads to the number.
    fn seek(&self, k: usize, b: u32, from: [u8; 16]) -> Option<[u8; 16]>
        requires { (Spot self.now.t.now k b) × (Marks self.now.t.now self.now.number self.now.leads.now) × (Valid (drop k (sizes self.now.t.now)) (slice k (features self.now.t.now) from)) }
        ensures { Seeks self.now.t.now self.now.number k b from result }
    {
        if features_word(self.t) as usize <= k {
            return (b == self.number).then_some(from);
        }
        let v = usize::from(from[k]);
        if let Some(same) = self.seek(k + 1, child_of(self.t, k, b, v), from) {
            return Some(same);
        }
        let w = self.smallest(k, b, v + 1)?;
        let mut to = from;
        to[k] = w as u8;
        Some(self.complete(k + 1, child_of(self.t, k, b, w), to))
    }
}

// The first setting at or after the given one that the rule of the place gives the number.
pub fn first_with(t: &[u32], place: usize, number: u32, setting: &[u8]) -> Option<Setting>
    requires { (Sound t.now) × (place < 32) × (Valid (sizes t.now) setting.now) }
    ensures { Answers (sizes t.now) (rule_of t.now place) number setting.now result }
{
    let mut leads = NodeAnswers::new(Wanted::Exactly(number));
    leads.fill(t);
    let from = Setting::of(setting).values;
    let search = Search {
        t,
        leads: &leads,
        number,
    };
    let values = search.seek(0, root_word(t, place), from)?;
    Some(Setting {
        count: setting.len(),
        values,
    })
}
