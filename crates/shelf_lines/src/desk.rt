// What is lent to the calls.
ghost use Rattle.std.specs.Prelude.{EachIndex, length, min, slice_index, take, ◌≡◌};

// How many words a buffer has.
pub const WORDS: usize = 16384;

// Words, of which the first are lent: so many, or all where there are no more.
#[derive(Clone, Copy)]
pub struct Buffer {
    pub words: [u32; WORDS],
    pub lent: usize,
}

impl Buffer {
    // Zeros, of which so many are lent.
    fn of_zeros(lent: usize) -> Buffer {
        Buffer {
            words: [0; WORDS],
            lent,
        }
    }

    // The lent words.
    pub fn lent(&mut self) -> &mut [u32]
        ensures as_many_as_lent { length result.now ≡ min self.old.lent WORDS }
        ensures first_words { result.now ≡ take self.old.lent self.old.words }
    {
        let count = self.lent.min(WORDS);
        &mut self.words[..count]
    }
}

// The buffer of a table, and how many features the list has that it was last opened with.
#[derive(Clone, Copy)]
pub struct Table {
    pub buffer: Buffer,
    pub features: usize,
}

// Scratch, and the word that each word of it holds before a call.
#[derive(Clone, Copy)]
pub struct Scratch {
    pub buffer: Buffer,
    pub fill: u32,
}

impl Scratch {
    // The words that a call is lent.
    pub fn filled(&mut self) -> &mut [u32]
        ensures as_many_as_lent { length result.now ≡ min self.old.buffer.lent WORDS }
        ensures each_the_fill { EachIndex result.now (λ k. slice_index result.now k ≡ self.old.fill) }
    {
        let fill = self.fill;
        let words = self.buffer.lent();
        words.fill(fill);
        words
    }
}

// Two tables and scratch.
#[derive(Clone, Copy)]
pub struct Desk {
    pub rules: Table,
    pub costs: Table,
    pub scratch: Scratch,
}

impl Desk {
    // The desk before the first line.
    pub fn new() -> Desk {
        Desk {
            rules: Table {
                buffer: Buffer::of_zeros(WORDS),
                features: 0,
            },
            costs: Table {
                buffer: Buffer::of_zeros(WORDS),
                features: 0,
            },
            scratch: Scratch {
                buffer: Buffer::of_zeros(4096),
                fill: 0,
            },
        }
    }
}
