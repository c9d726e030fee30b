// Bytes as two lower-case hex digits each, and `-` for none.
ghost use Rattle.std.specs.Prelude.{IfOk, length, ◌*◌, ◌<◌, ◌≤◌};

use crate::faults::Fault;
use std::fmt;

// How many bytes are written at a time: a write for each of them would take three times as long.
const PIECE: usize = 64;

// The value of a digit.
fn digit(glyph: u8) -> Result<u8, Fault>
    ensures { IfOk result (λ d. d < 16) }
{
    match glyph {
        b'0'..=b'9' => Ok(glyph - b'0'),
        b'a'..=b'f' => Ok(glyph - b'a' + 10),
        _ => Err(Fault::Unknown),
    }
}

// The bytes that a text says, put at the start of the room, which has to hold them all.
pub fn bytes_in<'a>(text: &str, room: &'a mut [u8]) -> Result<&'a [u8], Fault>
    ensures two_digits_each { IfOk result (λ b. 2 * length b.now ≤ length text.now) }
    ensures within_room { IfOk result (λ b. length b.now ≤ length room.old) }
{
    if text == "-" {
        return Ok(&[]);
    }
    let digits = text.as_bytes();
    if digits.is_empty() || digits.len() % 2 != 0 {
        return Err(Fault::Unknown);
    }
    let bytes = room.get_mut(..digits.len() / 2).ok_or(Fault::Unknown)?;
    for (byte, pair) in bytes.iter_mut().zip(digits.chunks_exact(2)) {
        *byte = 16 * digit(pair[0])? + digit(pair[1])?;
    }
    Ok(bytes)
}

// The digit of a value below 16.
fn glyph(value: u8) -> u8
    requires { value < 16 }
{
    b"0123456789abcdef"[usize::from(value)]
}

// The digits of bytes, put at the start of the room, which has to hold them all.
fn digits_of<'a>(bytes: &[u8], room: &'a mut [u8]) -> Result<&'a str, fmt::Error> {
    let digits = room.get_mut(..2 * bytes.len()).ok_or(fmt::Error)?;
    for (pair, byte) in digits.chunks_exact_mut(2).zip(bytes) {
        pair[0] = glyph(byte / 16);
        pair[1] = glyph(byte % 16);
    }
    str::from_utf8(digits).map_err(|_| fmt::Error)
}

// Bytes that are written as hex digits.
#[derive(Clone, Copy)]
pub struct Hex<'a>(pub &'a [u8]);

impl fmt::Display for Hex<'_> {
    fn fmt<W: fmt::Write>(&self, f: &mut fmt::Formatter<W>) -> fmt::Result {
        if self.0.is_empty() {
            return f.write_str("-");
        }
        let mut room = [0u8; 2 * PIECE];
        for piece in self.0.chunks(PIECE) {
            f.write_str(digits_of(piece, &mut room)?)?;
        }
        Ok(())
    }
}
