// Steps through settings and prints what it meets: the six settings of sizes 2, 3 in order, how many there are of
// sizes 3, 5, 2, 8, and the numbers of refused steps.
#![tactic(auto)]

use settings::{Setting, Stepped, outcome_number};
use std::{io, iter};

// The setting after this one; none where it is the last, or the step is refused.
fn after(setting: Setting, features: &[u8]) -> Option<Setting> {
    match setting.next(features) {
        Ok(Stepped::Next(next)) => Some(next),
        _ => None,
    }
}

// The first two values of a setting, on a line.
fn say_pair(rt: &impl Print, setting: Setting) -> io::Result<()> {
    let [first, second, ..] = setting.values;
    println!(rt; "{first} {second}")
}

// The settings from all zeros up to the last, at most 100, and what the last step gives.
fn say_pairs(rt: &impl Print, features: &[u8]) -> io::Result<()> {
    let mut setting = Setting::zero(2);
    for _ in 0..100 {
        say_pair(rt, setting)?;
        match setting.next(features) {
            Ok(Stepped::Next(next)) => setting = next,
            Ok(Stepped::Last(first)) => {
                rt.print("last, then ")?;
                return say_pair(rt, first);
            }
            Err(_) => break,
        }
    }
    Ok(())
}

// How many settings are met from all zeros up to the last, at most 1000.
fn count_met(features: &[u8]) -> usize {
    iter::successors(
        Some(Setting::zero(features.len())),
        |setting| after(*setting, features),
    )
    .take(1000)
    .count()
}

// The number of one step's ending, on a line.
fn say_ending(rt: &impl Print, values: &[u8], features: &[u8]) -> io::Result<()> {
    let step = Setting::of(values).next(features);
    println!(rt; "{}", outcome_number(&step))
}

fn main(rt: HostRuntime) -> io::Result<()> {
    say_pairs(&rt, &[2, 3])?;
    println!(rt; "{}", count_met(&[3, 5, 2, 8]))?;
    say_ending(&rt, &[], &[])?;
    say_ending(&rt, &[0; 17], &[2; 17])?;
    say_ending(&rt, &[0, 0], &[2, 1])?;
    say_ending(&rt, &[0, 0], &[2, 9])?;
    say_ending(&rt, &[0, 3], &[2, 3])?;
    say_ending(&rt, &[0, 0, 0], &[2, 3])?;
    say_ending(&rt, &[0; 16], &[8; 16])
}
