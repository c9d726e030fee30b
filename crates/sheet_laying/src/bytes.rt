// Numbers and branches in bytes, high byte first, written where a cursor stands.
ghost use Rattle.std.specs.Prelude.{◌≡◌, [], ◌∷◌, ◌+◌, ◌≤◌, ◌<◌, length};
ghost use Rattle.sheet_bytes.specs.Sections.{two};
ghost use Rattle.sheet_bytes.specs.Sheet.{branch_bytes};
ghost use Rattle.sheet_laying.specs.Laid.{Puts};
ghost use Rattle.promises.specs.RuleWords.{decode};

// An output, and where the next byte is written in it.
#[derive(Drop)]
pub struct Cursor<'a> {
    pub out: &'a mut [u8],
    pub at: usize,
}

impl<'a> Cursor<'a> {
    // Writes a number below 256.
    pub fn put_byte(&mut self, x: u32)
        requires { (self.old.at < length self.old.out.now) × (x < 256) }
        ensures { Puts (x ∷ []) self.old self.new }
    {
        self.out[self.at] = x as u8;
        self.at += 1;
    }

    // Writes a two-byte number.
    pub fn put_two(&mut self, x: u32)
        requires { (self.old.at + 2 ≤ length self.old.out.now) × (x < 65536) }
        ensures { Puts (two x) self.old self.new }
    {
        let [_, _, high, low] = x.to_be_bytes();
        self.out[self.at] = high;
        self.out[self.at + 1] = low;
        self.at += 2;
    }

    // Writes the three bytes of a branch, for its word.
    pub fn put_branch(&mut self, x: u32)
        requires { (self.old.at + 3 ≤ length self.old.out.now) × (x < 131072) }
        ensures { Puts (branch_bytes (decode x)) self.old self.new }
    {
        self.put_byte(x / 65536);
        self.put_two(x % 65536);
    }
}
