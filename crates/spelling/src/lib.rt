// A pattern's bytes, and a subscription, written as a line of the notation.
#![tactic(auto)]

mod line; // line.rt: a pattern by value as a line

ghost use Rattle.std.specs.Prelude.{◌≡◌};
ghost use Rattle.meaning.specs.Calls.{with_room, after};
ghost use Rattle.meaning.specs.LineCalls.{pattern_writing, subscription_writing, output_answer};
ghost use Rattle.spelling.specs.OnlyPattern.{only_place};

use crate::line::write_line;
use meaning::Refusal;
use places::{byte_at, end};
use reading::patterns::pattern;
use reading::sheet;
use subscriptions::{pattern_at, subscriptions_in};

// Where a pattern ends that is all of the bytes, or its first fault, with so many labels.
fn only_pattern(p: &[u8], known: usize) -> Result<usize, Refusal>
    ensures { result ≡ only_place p.now known }
{
    let x = pattern(p, known, 0)?;
    end(p, x)
}

// A pattern's bytes as a line, written from the start of the output.
pub fn write_pattern(s: &[u8], p: &[u8], out: &mut [u8]) -> Result<usize, Refusal>
    ensures { (result ≡ output_answer (with_room out.old (pattern_writing s.now p.now)))
        × (out.new ≡ after out.old (with_room out.old (pattern_writing s.now p.now))) }
{
    sheet(s)?;
    only_pattern(p, byte_at(s, 0))?;
    write_line(s, pattern_at(p, 0), out)
}

// A subscription as a line, written from the start of the output.
pub fn write_subscription(s: &[u8], i: u64, out: &mut [u8]) -> Result<usize, Refusal>
    ensures { (result ≡ output_answer (with_room out.old (subscription_writing s.now i)))
        × (out.new ≡ after out.old (with_room out.old (subscription_writing s.now i))) }
{
    sheet(s)?;
    let subscriptions = subscriptions_in(s);
    let p = subscriptions.beside(s).asked(i)?;
    write_line(s, p, out)
}
