// Costs laid into lent words, as C reads signed numbers.
ghost use Rattle.std.specs.Prelude.{◌≡◌, [], ◌∷◌};
ghost use Rattle.promises.specs.Integers.{Fit};
ghost use Rattle.promises.specs.Range.{cost_most};
ghost use Rattle.promises.specs.ForC.{placed, signed};

use c_results::{put, put_before};

// The word of a cost, which 32 bits hold.
fn signed_word(z: i64) -> u32
    requires { Fit cost_most z }
    ensures { result ≡ signed z }
{
    (z as i32).cast_unsigned()
}

// A cost as one word, then how many features were asked.
pub fn put_cost(out: &mut [u32], z: i64, asked: u32)
    requires { Fit cost_most z }
    ensures { out.new ≡ placed (signed z ∷ asked ∷ []) out.old }
{
    put(out, &[signed_word(z), asked]);
}

// A cost as one word, then the values of a setting.
pub fn put_found(out: &mut [u32], z: i64, values: [u8; 16])
    requires { Fit cost_most z }
    ensures { out.new ≡ placed (signed z ∷ values) out.old }
{
    put_before(out, signed_word(z), values);
}
