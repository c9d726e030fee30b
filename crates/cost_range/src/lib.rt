// Whether the result of an operation on costs stays in its range, found by reading: scale by the lowest and the highest amount of its cost, which its
// root keeps. A sum or a difference stays there at once where these allow it; else a walk over pairs of targets gives its own lowest and highest
// amount, with remembered results in lent scratch words or in the far records. It stops where one side has ended.
#![tactic(auto)]

ghost use Rattle.std.specs.Prelude.{◌≡◌, ◌+◌, ◌≤◌, ◌<◌, drop, ◌*ℤ◌};
ghost use Rattle.theory.specs.Diagrams.{meaning};
ghost use Rattle.table_notes.specs.Plain.{Resting, plain};
ghost use Rattle.settings.specs.Tells.{Tells};
ghost use Rattle.cost_words.specs.Sides.{end_of};
ghost use Rattle.cost_words.specs.Sums.{Stands};
ghost use Rattle.cost_engine.specs.Joint.{together};
ghost use Rattle.cost_range.specs.Ends.{tie_of, Spans, Reaches, Inside, meeting, Meeting, Pair, of_targets, of_branches, Noted, Furthest};
ghost use Rattle.cost_notes.specs.Operand.{Operand};
ghost use Rattle.cost_range.specs.Operable.{Operable};
ghost use Rattle.promises.specs.Integers.{rise, fall, Fit, int};
ghost use Rattle.promises.specs.CostOperations.{scaled};
ghost use Rattle.promises.specs.Range.{Within, cost_most};
ghost use Rattle.promises.specs.Words.{features, sizes};
ghost use Rattle.promises.specs.CostWords.{cost_branch as branch, cost_node_list as nodes};

use cost_engine::Operator;
use cost_nodes::Arm;
use cost_notes::{Operation, arm_in, kept_in, lowest, recall_in, remember_in};
use cost_words::{Span, ZERO, difference_or_lost, kept_span, sum_or_lost, sum_word, wider};
use table_notes::{begin, clear, clear_window};
use table_words::size_word;

// Ends are the words of the lowest and of the highest amount, or None where no base brings all amounts into range.

// The word of the difference of two if `minus`, else of the sum; None if it lies outside ±2,000,000,000.
fn tied_word(minus: bool, a: u32, b: u32) -> Option<u32>
    ensures { Stands (tie_of minus (int a) (int b)) result }
{
    if minus {
        difference_or_lost(a, b)
    } else {
        sum_or_lost(a, b)
    }
}

// Subtract if `minus`, else add.
fn operation_of(minus: bool) -> Operation {
    if minus {
        Operation::Subtract
    } else {
        Operation::Add
    }
}

// The word of one end.
fn end_of(up: bool, a: Span) -> u32
    ensures { result ≡ end_of up a.low a.high }
{
    if up { a.high } else { a.low }
}

// What the ends of two costs give on one side: the lowest and the lowest of a sum, the lowest and the highest of a difference.
fn met_word(minus: bool, up: bool, a: Span, b: Span) -> Option<u32>
    ensures { Stands (meeting minus up a.low a.high b.low b.high) result }
{
    if minus {
        tied_word(true, end_of(up, a), end_of(!up, b))
    } else {
        tied_word(false, end_of(up, a), end_of(up, b))
    }
}

// The same on both sides. No amount of the two together lies further out.
fn met_ends(minus: bool, a: Span, b: Span) -> Option<Span>
    ensures { Meeting minus a.low a.high b.low b.high result }
{
    let low = met_word(minus, false, a, b)?;
    let high = met_word(minus, true, a, b)?;
    Some(Span { low, high })
}

// Whether both ends lie in the range of costs.
fn ends_inside(e: Option<Span>) -> bool
    ensures { Tells result (Inside e) }
{
    let Some(a) = e else {
        return false;
    };
    1147483648 <= a.low && a.high <= 3147483648
}

// The further on both sides of what some values gave and of one more; after none, the one more.
fn furthest(a: Option<Span>, b: Span) -> Span
    ensures { Furthest a b result }
{
    match a {
        Some(a) => wider(a, b),
        None => b,
    }
}

// The ends of two targets from feature k on: one pair's result.
#[cycle(branch_ends_fold_branches_rest_ends)]
fn rest_ends(t: &mut [u32], s: &mut [u32], minus: bool, k: usize, x: u32, y: u32) -> Option<Span>
    requires { (Pair (plain t.old) k x y) × (Noted minus t.old s.old) }
    ensures { (Reaches (drop k (sizes (plain t.old))) (of_targets minus (plain t.old) k x y) result)
        × (plain t.new ≡ plain t.old) × (Noted minus t.new s.new) }
{
    if x == 0 || y == 0 {
        return met_ends(minus, kept_in(t, x), kept_in(t, y));
    }
    let j = lowest(t, x, y);
    let operation = operation_of(minus);
    let tag = (j + 1) as u32;
    if let Some((low, high)) = recall_in(t, s, operation, tag, x, y, 0) {
        return Some(Span { low, high });
    }
    let ends = fold_branches(t, s, minus, j, x, y)?;
    remember_in(t, s, operation, tag, x, y, 0, ends.low, ends.high);
    Some(ends)
}

// The same at a feature that is left: over the branches for its values in turn.
#[cycle(branch_ends_fold_branches_rest_ends)]
fn fold_branches(
    t: &mut [u32],
    s: &mut [u32],
    minus: bool,
    k: usize,
    x: u32,
    y: u32,
) -> Option<Span>
    requires { (Pair (plain t.old) k x y) × (Noted minus t.old s.old) × (k < features (plain t.old)) }
    ensures { (Reaches (drop k (sizes (plain t.old))) (of_targets minus (plain t.old) k x y) result)
        × (plain t.new ≡ plain t.old) × (Noted minus t.new s.new) }
{
    let m = size_word(t, k) as usize;
    let mut ends = None;
    for v in 0..m {
        let a = arm_in(t, k, x, v);
        let b = arm_in(t, k, y, v);
        let c = branch_ends(t, s, minus, k + 1, a, b)?;
        ends = Some(furthest(ends, c));
    }
    ends
}

// The ends of two branches from feature k on: those of their targets, with what both add put before them.
#[cycle(branch_ends_fold_branches_rest_ends)]
fn branch_ends(t: &mut [u32], s: &mut [u32], minus: bool, k: usize, a: Arm, b: Arm) -> Option<Span>
    requires { (Pair (plain t.old) k a.to b.to) × (Noted minus t.old s.old) }
    ensures { (Reaches (drop k (sizes (plain t.old))) (of_branches minus (plain t.old) k a.to a.adds b.to b.adds) result)
        × (plain t.new ≡ plain t.old) × (Noted minus t.new s.new) }
{
    let base = tied_word(minus, a.adds, b.adds)?;
    let rest = rest_ends(t, s, minus, k, a.to, b.to)?;
    let low = sum_or_lost(base, rest.low)?;
    let high = sum_or_lost(base, rest.high)?;
    Some(Span { low, high })
}

// The ends of two branches over all features, with remembered results in s, whatever it holds, or in the far records. The table is as it was.
fn whole_ends(t: &mut [u32], s: &mut [u32], minus: bool, a: Arm, b: Arm) -> Option<Span>
    requires { (Pair t.old 0 a.to b.to) × (Resting t.old) }
    ensures { (t.new ≡ t.old) × (Reaches (sizes t.old) (of_branches minus t.old 0 a.to a.adds b.to b.adds) result) }
{
    let lent = begin(t, s.len());
    clear(&mut s[0..lent]);
    let r = branch_ends(t, &mut s[0..lent], minus, 0, a, b);
    clear_window(t);
    r
}

// The lowest and the highest amount of a branch whose cost lies in range.
fn span_of(t: &[u32], a: Arm) -> Span
    requires { Operand t.now (branch a.to a.adds) }
    ensures { Spans (sizes t.now) (meaning (nodes t.now) (branch a.to a.adds)) result.low result.high }
{
    let below = kept_span(t, a.to);
    Span {
        low: sum_word(a.adds, below.low),
        high: sum_word(a.adds, below.high),
    }
}

// Whether the sum, or the difference, of two branches lies in the range of costs: by their ends, or by its own.
fn tied_ok(t: &mut [u32], s: &mut [u32], minus: bool, a: Arm, b: Arm) -> bool
    requires { (Operand t.old (branch a.to a.adds)) × (Operand t.old (branch b.to b.adds)) }
    ensures { (t.new ≡ t.old) × (Tells result (Within cost_most (sizes t.old) (of_branches minus t.old 0 a.to a.adds b.to b.adds))) }
{
    ends_inside(met_ends(minus, span_of(t, a), span_of(t, b)))
        || ends_inside(whole_ends(t, s, minus, a, b))
}

// How far the integer of a word lies from 0.
fn distance(a: u32) -> usize
    requires { Fit cost_most (int a) }
    ensures { (result ≡ rise (int a) + fall (int a)) × (result ≤ cost_most) }
{
    a.abs_diff(ZERO) as usize
}

// Whether the product of two integers in range lies in range.
fn product_ok(a: u32, c: u32) -> bool
    requires { (Fit cost_most (int a)) × (Fit cost_most (int c)) }
    ensures { Tells result (Fit cost_most (int a *ℤ int c)) }
{
    distance(a) * distance(c) <= 1000000000
}

// Whether a cost in range stays there when it is scaled: by its lowest and its highest amount.
fn scaled_ok(t: &[u32], a: Arm, c: u32) -> bool
    requires { (Operand t.now (branch a.to a.adds)) × (Fit cost_most (int c)) }
    ensures { Tells result (Within cost_most (sizes t.now) (scaled (int c) (meaning (nodes t.now) (branch a.to a.adds)))) }
{
    let e = span_of(t, a);
    product_ok(e.low, c) && product_ok(e.high, c)
}

// Whether the result of an operation on two costs lies in the range of costs at every setting.
pub fn in_range(t: &mut [u32], s: &mut [u32], o: Operator, a: Arm, b: Arm) -> bool
    requires { Operable t.old o (branch a.to a.adds) (branch b.to b.adds) }
    ensures { (t.new ≡ t.old) × (Tells result
        (Within cost_most (sizes t.old) (together o (meaning (nodes t.old) (branch a.to a.adds)) (meaning (nodes t.old) (branch b.to b.adds))))) }
{
    match o {
        Operator::Add => tied_ok(t, s, false, a, b),
        Operator::Subtract => tied_ok(t, s, true, a, b),
        Operator::Smaller => true,
        Operator::Larger => true,
        Operator::Scale(c) => scaled_ok(t, a, c),
    }
}
