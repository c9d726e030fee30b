// A sheet: bytes that passed the check.
ghost use Rattle.std.specs.Prelude.{◌≡◌, ◌<◌};
ghost use Rattle.sheet_check.specs.Good.{good_prop};
ghost use Rattle.promises.specs.Sheet.{GoodSheet, sheet_root as root};

use sheet_bytes::Laid;

// The laid bytes of a rule's sheet.
#[derive(Clone, Copy)]
pub struct Sheet<'a> {
    pub laid: Laid<'a>,
    pub ghost good: { GoodSheet laid.bytes.now } by { good_prop laid.bytes.now },
    pub ghost one: { laid.roots ≡ 1 },
}

impl Sheet<'_> {
    // The branch word of the root.
    pub fn root(self) -> usize
        ensures { (result ≡ root self.entry.laid.bytes.now) × (result < 16777216) }
    {
        self.laid.root(0)
    }
}
