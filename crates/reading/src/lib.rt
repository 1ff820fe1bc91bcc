// Reading sheets: labels, steps and patterns are judged by places in the lent bytes (specs/SheetSection.antt), and what
// that gives is what a sheet means.
#![tactic(auto)]

pub mod steps; // steps.rt: the steps of a pattern
pub mod patterns; // patterns.rt: a pattern, a section of patterns

ghost use Rattle.std.specs.Prelude.{◌≡◌};
ghost use Rattle.meaning.specs.Numbers.{number_given};
ghost use Rattle.meaning.specs.Calls.{sheet_number};
ghost use Rattle.reading.specs.SheetSection.{sheet_place};

use crate::patterns::patterns;
use labels::labels;
use meaning::Refusal;
use places::{byte_at, end};

// Where a sheet ends, or its first fault.
pub fn sheet(s: &[u8]) -> Result<usize, Refusal>
    ensures { result ≡ sheet_place s.now }
{
    if s.len() == 0 {
        return Err(Refusal::EndsEarly);
    }
    let n = byte_at(s, 0);
    let x = labels(s, 0, s, 1, n)?;
    let y = patterns(s, n, x)?;
    end(s, y)
}

// Is a sheet sound?
pub fn sheet_check(s: &[u8]) -> Result<(), Refusal>
    ensures { number_given result ≡ sheet_number s.now }
{
    sheet(s)?;
    Ok(())
}
