// Lines of the notation: a line read with a sheet's labels, and its steps written as a pattern.
#![tactic(auto)]

mod steps; // steps.rt: all bytes, the steps of a line
mod limit; // limit.rt: the limit of 1,024 bytes
mod drawn; // drawn.rt: the steps, written as a pattern

ghost use Rattle.std.specs.Prelude.{◌≡◌};
ghost use Rattle.meaning.specs.LineCalls.{line_answer, line_output};
ghost use Rattle.reading.specs.SheetPlaces.{sheet_at};
ghost use Rattle.lines.specs.Said.{LineGives};

use crate::drawn::write_drawn;
use crate::limit::steps_within;
use meaning::{LineRefusal, Refusal};
use reading::sheet;

// A line read with the labels of a sheet.
fn read_judged(s: &[u8], line: &[u8], out: &mut [u8]) -> Result<usize, LineRefusal>
    ensures { LineGives (sheet_at s.now).labels line.now out.old result out.new }
{
    match steps_within(s, line) {
        Ok(found) => Ok(write_drawn(found, out)?),
        Err(place) => Err(LineRefusal {
            why: Refusal::NotALine,
            place,
        }),
    }
}

// A line read with a sheet's labels: a step count and the steps, written from the start of the output.
pub fn read_line(s: &[u8], line: &[u8], out: &mut [u8]) -> Result<usize, LineRefusal>
    ensures { (result ≡ line_answer out.old s.now line.now)
        × (out.new ≡ line_output out.old s.now line.now) }
{
    sheet(s)?;
    read_judged(s, line, out)
}
