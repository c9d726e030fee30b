// The commands of rule sheets: write, and read and slook with the bytes as hex digits.
use settings::outcome_number;
use shelf_lines::{Fault, Hex, at_most, bytes_in, say, say_looked, value, values};

// The most bytes that a sheet is written into.
const OUTPUT: usize = 8192;

// What every byte of them is before.
const BEFORE: u8 = 0xaa;

// More bytes than the hex digits of a line can say.
const SHEET: usize = 32768;

// `write P LENGTH`: all bytes of the output are shown.
pub fn write(rt: &impl Print, place: &str, length: &str, table: &[u32]) -> Result<(), Fault> {
    let length = at_most(length, OUTPUT)?;
    let mut room = [BEFORE; OUTPUT];
    let output = &mut room[..length];
    let wrote = sheet_calls::write(table, value(place)?, output);
    let ending = outcome_number(&wrote);
    print!(rt; "{ending} {} {}", wrote.unwrap_or_default(), Hex(output))?;
    Ok(())
}

// `read P HEX`
pub fn read(rt: &impl Print, place: &str, sheet: &str, table: &mut [u32]) -> Result<(), Fault> {
    let mut room = [0u8; SHEET];
    let sheet = bytes_in(sheet, &mut room)?;
    say(rt, sheet_calls::read(table, value(place)?, sheet))
}

// `slook HEX V0 V1 ..`
pub fn look_in_sheet(rt: &impl Print, sheet: &str, setting: &[&str]) -> Result<(), Fault> {
    let mut room = [0u8; SHEET];
    let sheet = bytes_in(sheet, &mut room)?;
    let mut values_room = [0u8; 64];
    let setting = values(setting, &mut values_room)?;
    say_looked(rt, sheets::look_up(sheet, setting))
}
