// The commands on the words of a buffer: one word, overwriting one, the checksum of all.
use crate::desk::Buffer;
use crate::faults::Fault;
use crate::numbers::{value, word};

// One word.
pub fn say_word(rt: &impl Print, index: &str, buffer: &Buffer) -> Result<(), Fault> {
    let index: usize = value(index)?;
    let word = buffer.words.get(index).ok_or(Fault::Unknown)?;
    print!(rt; "0 {word}")?;
    Ok(())
}

// One word is overwritten.
pub fn poke(rt: &impl Print, index: &str, text: &str, buffer: &mut Buffer) -> Result<(), Fault> {
    let index: usize = value(index)?;
    let place = buffer.words.get_mut(index).ok_or(Fault::Unknown)?;
    *place = word(text)?;
    print!(rt; "0")?;
    Ok(())
}

// The checksum: the words are the digits of a number in base 1,000,003, taken modulo 2^44 - 17.
fn checksum(words: &[u32]) -> u64 {
    let mut sum: u64 = 0;
    for word in words {
        sum = (sum * 1000003 + u64::from(*word)) % 17592186044399;
    }
    sum
}

pub fn say_sum(rt: &impl Print, buffer: &Buffer) -> Result<(), Fault> {
    let sum = checksum(&buffer.words);
    print!(rt; "0 {sum}")?;
    Ok(())
}
