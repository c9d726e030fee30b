// Signed numbers at the public edge, and the words that stand for them inside.
#![tactic(auto)]

ghost use Rattle.std.specs.Prelude.{◌≡◌};
ghost use Rattle.settings.specs.Tells.{Tells};
ghost use Rattle.promises.specs.Integers.{Fit, int};
ghost use Rattle.promises.specs.Range.{cost_most};

// The word that stands for 0.
const ZERO: i64 = 2147483648;

// Whether a number lies within ±1,000,000,000.
pub fn amount_ok(z: i64) -> bool
    ensures { Tells result (Fit cost_most z) }
{
    (-1000000000..=1000000000).contains(&z)
}

// The word that stands for a number.
pub fn word_of(z: i64) -> u32
    requires { Fit cost_most z }
    ensures { int result ≡ z }
{
    (z + ZERO) as u32
}

// The number that a word stands for.
pub fn cost_of(w: u32) -> i64
    ensures { result ≡ int w }
{
    i64::from(w) - ZERO
}
