// A pattern, and a section of patterns.
ghost use Rattle.std.specs.Prelude.{◌≡◌};
ghost use Rattle.base.specs.Loops.{run};
ghost use Rattle.reading.specs.SheetSection.{pattern_section, pattern_place, patterns_place};
ghost use Rattle.places.specs.InTurn.{each_place};

use crate::steps::steps;
use meaning::{MOST_PATTERNS, MOST_STEPS, Refusal};
use places::byte_at;

// A pattern at x: a step count and the steps.
pub fn pattern(s: &[u8], known: usize, x: usize) -> Result<usize, Refusal>
    ensures { result ≡ pattern_place s.now known x }
{
    if s.len() <= x {
        return Err(Refusal::EndsEarly);
    }
    let n = byte_at(s, x);
    if MOST_STEPS < n {
        return Err(Refusal::CountOutside);
    }
    steps(s, known, x + 1, n)
}

// The n patterns from the place p on.
fn patterns_from(s: &[u8], known: usize, p: usize, n: usize) -> Result<usize, Refusal>
    ensures { result ≡ run (each_place (pattern_section s.now known)) n 0 p }
{
    let mut x = p;
    for _ in 0..n {
        x = pattern(s, known, x)?;
    }
    Ok(x)
}

// The patterns of a sheet, from their count on.
pub fn patterns(s: &[u8], known: usize, x: usize) -> Result<usize, Refusal>
    ensures { result ≡ patterns_place s.now known x }
{
    if s.len() <= x {
        return Err(Refusal::EndsEarly);
    }
    let n = byte_at(s, x);
    if MOST_PATTERNS < n {
        return Err(Refusal::CountOutside);
    }
    patterns_from(s, known, x + 1, n)
}
