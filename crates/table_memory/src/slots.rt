// Which entries a walk's result is remembered in: one, or the one after it. Any will do, and nothing rests on which: the better results spread, the
// fewer push each other out.
ghost use Rattle.std.specs.Prelude.{◌<◌};

// So many entries or more are chosen from by the number itself.
const WORD: usize = 4294967296;

// One word more mixed in. The high bits are folded down before they are multiplied up again, so that strides of the words do not meet in a few entries.
pub fn mixed(h: u32, x: u32) -> u32 {
    let sum = h.wrapping_add(x);
    (sum ^ sum >> 16).wrapping_mul(2654435761)
}

// The entry of so many that a mixed number chooses: as far along them as the number is along all numbers of 32 bits. That needs no division.
pub fn slot_at(h: u32, slots: usize) -> usize
    requires { 0 < slots }
    ensures { result < slots }
{
    let h = h as usize;
    if slots < WORD { h * slots / WORD } else { h }
}

// The entry after one; after the last the first.
pub fn slot_after(i: usize, slots: usize) -> usize
    requires { i < slots }
    ensures { result < slots }
{
    let next = i + 1;
    if next < slots { next } else { 0 }
}
