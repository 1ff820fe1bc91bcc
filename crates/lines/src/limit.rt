// The limit of 1,024 bytes: a longer line is refused, at 1,024 at the latest, and nothing behind that is looked at.
ghost use Rattle.meaning.specs.Lines.{read_line};
ghost use Rattle.labels.specs.LabelPlaces.{labels_in};
ghost use Rattle.lines.specs.Found.{FoundIs};

use crate::steps::{Found, steps_of};
use meaning::LONGEST_LINE;

// The steps of a line, or the place of its first fault, within the limit.
pub fn steps_within(s: &[u8], line: &[u8]) -> Result<Found, usize>
    ensures { FoundIs (labels_in s.now) (read_line line.now) result }
{
    if line.len() <= LONGEST_LINE {
        return steps_of(s, line);
    }
    steps_of(s, &line[..LONGEST_LINE])?;
    Err(LONGEST_LINE)
}
