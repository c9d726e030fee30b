// Sums and differences of words that stand for integers, None where they lie outside ±2,000,000,000; the further of two.
ghost use Rattle.std.specs.Prelude.{◌≡◌, ◌<◌, ◌+ℤ◌, ◌-ℤ◌};
ghost use Rattle.cost_words.specs.Sums.{Stands};
ghost use Rattle.promises.specs.Integers.{int};
ghost use Rattle.promises.specs.CostSound.{side_of};

use crate::WIDE_ZERO;

// The word of a sum, or None if the sum lies outside ±2,000,000,000.
pub fn sum_or_lost(a: u32, b: u32) -> Option<u32>
    ensures { Stands (int a +ℤ int b) result }
{
    let s = u64::from(a) + u64::from(b);
    if s < 2294967296 || 6294967296 < s {
        return None;
    }
    Some((s - WIDE_ZERO) as u32)
}

// The word of a difference, or None if the difference lies outside ±2,000,000,000.
pub fn difference_or_lost(a: u32, b: u32) -> Option<u32>
    ensures { Stands (int a -ℤ int b) result }
{
    let d = (u64::from(a) + 2000000000).checked_sub(u64::from(b))?;
    if 4000000000 < d {
        return None;
    }
    Some((147483648 + d) as u32)
}

// The higher of two if `up`, else the lower.
pub fn further(up: bool, a: u32, b: u32) -> u32
    ensures { (int result ≡ side_of up (int a) (int b)) × (0 < a → 0 < b → 0 < result) }
{
    if up { a.max(b) } else { a.min(b) }
}
