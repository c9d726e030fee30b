// The hand of rule sheets: how many bytes a branch has, where it begins, and what they say.
ghost use Rattle.std.specs.Prelude.{◌≡◌, ◌+◌, ◌*◌, ◌<◌, length};
ghost use Rattle.promises.specs.Sheet.{triple as word};

// The bytes of a branch: a flag, and a number of two bytes.
pub const BRANCH: usize = 3;

// Of branches one after the other from p on, where branch v begins.
pub fn spot(p: usize, v: usize) -> usize
    requires { p + 3 * v < 18446744073709551616 }
    ensures { result ≡ p + 3 * v }
{
    p + BRANCH * v
}

// A branch's three bytes at p, as one number.
pub fn word_at(s: &[u8], p: usize) -> usize
    requires { p + 2 < length s.now }
    ensures { (result ≡ word s.now p) × (result < 16777216) }
{
    u32::from_be_bytes([0, s[p], s[p + 1], s[p + 2]]) as usize
}
