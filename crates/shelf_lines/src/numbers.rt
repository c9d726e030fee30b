// Decimal numbers, from -2^63 to 2^63 - 1, and what a parameter is passed for one.
ghost use Rattle.std.specs.Prelude.{IfOk, ◌≤◌};

use crate::faults::Fault;

// A type of parameters.
pub trait Parameter: Copy {
    // What a parameter of the type is passed for a number: the largest value where it cannot hold the number.
    fn passed(number: i64) -> Self;
}

impl Parameter for u8 {
    fn passed(number: i64) -> u8 {
        u8::try_from(number).unwrap_or(u8::MAX)
    }
}

impl Parameter for u32 {
    fn passed(number: i64) -> u32 {
        u32::try_from(number).unwrap_or(u32::MAX)
    }
}

impl Parameter for usize {
    fn passed(number: i64) -> usize {
        usize::try_from(number).unwrap_or(usize::MAX)
    }
}

impl Parameter for i64 {
    fn passed(number: i64) -> i64 {
        number
    }
}

// The number that a text is: digits, with or without a minus sign before them. A plus sign, which `parse` takes, is none.
fn number(text: &str) -> Result<i64, Fault> {
    if text.starts_with('+') {
        return Err(Fault::Unknown);
    }
    text.parse().map_err(|_| Fault::Unknown)
}

// What a parameter is passed for the number that a text is.
pub fn value<T: Parameter>(text: &str) -> Result<T, Fault> {
    Ok(T::passed(number(text)?))
}

// The number that a text is, where it is not negative and at most so large.
pub fn at_most(text: &str, most: usize) -> Result<usize, Fault>
    ensures { IfOk result (λ n. n ≤ most) }
{
    match value(text)? {
        x if x <= most => Ok(x),
        _ => Err(Fault::Unknown),
    }
}

// The word that a text is, where 32 bits hold it.
pub fn word(text: &str) -> Result<u32, Fault> {
    u32::try_from(number(text)?).map_err(|_| Fault::Unknown)
}
