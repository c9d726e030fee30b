// Results of a call for C, laid into lent words, as many as fit.
#![tactic(auto)]

ghost use Rattle.std.specs.Prelude.{◌≡◌, [], ◌∷◌, ◌<◌};
ghost use Rattle.promises.specs.ForC.{placed, halves};

// Result words, each where there is room for it. Word by word: a copy of a length known only at run time would call memcpy.
pub fn put(out: &mut [u32], results: &[u32])
    ensures { out.new ≡ placed results.now out.old }
{
    for (i, x) in results.iter().enumerate() {
        if i < out.len() {
            out[i] = *x;
        }
    }
}

// A length as one word.
pub fn put_length(out: &mut [u32], n: usize)
    requires { n < 4294967296 }
    ensures { out.new ≡ placed (n ∷ []) out.old }
{
    put(out, &[n as u32]);
}

// A number as two words, the low one first.
pub fn put_number(out: &mut [u32], x: u64)
    ensures { out.new ≡ placed (halves x) out.old }
{
    put(
        out,
        &[(x % 0x1_0000_0000) as u32, (x / 0x1_0000_0000) as u32],
    );
}

// Bytes as words.
fn widened(values: [u8; 16]) -> [u32; 16]
    ensures { result ≡ values }
{
    values.map(|value| u32::from(value))
}

// The values of a setting, and 0 past them.
pub fn put_values(out: &mut [u32], values: [u8; 16])
    ensures { out.new ≡ placed values out.old }
{
    put(out, &widened(values));
}

// One word, then the values.
pub fn put_before(out: &mut [u32], x: u32, values: [u8; 16])
    ensures { out.new ≡ placed (x ∷ values) out.old }
{
    let mut results = [x; 17];
    results[1..].copy_from_slice(&widened(values));
    put(out, &results);
}
