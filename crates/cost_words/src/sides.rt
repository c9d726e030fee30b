// What a table keeps for its nodes, the lowest and the highest sum below each, and what that is for a body.
ghost use Rattle.std.specs.Prelude.{◌<◌};
ghost use Rattle.cost_words.specs.Sides.{Keeps, Near, Wider, Bodied, ArmSums, Sides};

use crate::sums::{further, sum_or_lost};
use crate::{Target, ZERO, target_at};
use table_words::{half_of, record_word};

// The words of a lowest and of a highest sum.
#[derive(Clone, Copy)]
pub struct Span {
    pub low: u32,
    pub high: u32,
}

// What is kept for a target: the lowest and the highest sum below it, 0 for the end.
pub fn kept_span(t: &[u32], x: u32) -> Span
    requires { Near t.now x }
    ensures { Keeps t.now x result.low result.high }
{
    match target_at(x) {
        Target::End => Span {
            low: ZERO,
            high: ZERO,
        },
        Target::Node(i) => Span {
            low: record_word(t, i as usize, 14),
            high: record_word(t, i as usize, 15),
        },
    }
}

// The lower of two lowest, the higher of two highest.
pub fn wider(a: Span, b: Span) -> Span
    ensures { Wider a.low a.high b.low b.high result.low result.high }
{
    Span {
        low: further(false, a.low, b.low),
        high: further(true, a.high, b.high),
    }
}

// The sums along branch v of a body; None if one lies outside ±2,000,000,000.
fn arm_span(t: &[u32], list: [u32; 12], m: usize, v: usize) -> Option<Span>
    requires { (Bodied t.now list m) × (v < m) }
    ensures { ArmSums t.now list v result }
{
    let adds = list[4 + v];
    let below = kept_span(t, half_of(list[v / 2], v));
    let low = sum_or_lost(adds, below.low)?;
    let high = sum_or_lost(adds, below.high)?;
    Some(Span { low, high })
}

// The lowest and the highest sum along m branches of a body; None if one lies outside ±2,000,000,000.
pub fn sides_of(t: &[u32], list: [u32; 12], m: usize) -> Option<Span>
    requires { Bodied t.now list m }
    ensures { Sides t.now list m result }
{
    let mut best = arm_span(t, list, m, 0)?;
    for v in 1..m {
        let x = arm_span(t, list, m, v)?;
        best = wider(best, x);
    }
    Some(best)
}
