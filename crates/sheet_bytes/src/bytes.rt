// Numbers in bytes, high byte first.
ghost use Rattle.std.specs.Prelude.{◌≡◌, ◌+◌, ◌<◌, length};
ghost use Rattle.promises.specs.Sheet.{pair};

// The two-byte number at p.
pub fn pair_at(s: &[u8], p: usize) -> usize
    requires { p + 1 < length s.now }
    ensures { (result ≡ pair s.now p) × (result < 65536) }
{
    usize::from(u16::from_be_bytes([s[p], s[p + 1]]))
}
