// Write: the sheet of a place into lent bytes. It only reads the table.
ghost use Rattle.promises.specs.Deed.{Meets};
ghost use Rattle.promises.specs.SheetDeeds.{write_sheet};

use rule_calls::door;
use settings::Refusal;
use sheet_writer::put_sheet;

// Writes the sheet of the place's rule to the front of the output, and answers its length; the bytes after it stay.
pub fn write(t: &[u32], place: usize, out: &mut [u8]) -> Result<usize, Refusal>
    ensures { Meets (write_sheet place out.old) t.now t.now (result, out.new) }
{
    door(t, &[place])?;
    put_sheet(t, place, out).ok_or(Refusal::NoSpace)
}
