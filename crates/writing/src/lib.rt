// Writing a pattern and a table into a lent output.
#![tactic(auto)]

ghost use Rattle.std.specs.Prelude.{◌+◌, ◌≤◌, ◌≡◌, length};
ghost use Rattle.std.proofs.lemmas.List.Edits.{sets};
ghost use Rattle.meaning.specs.Calls.{writes};
ghost use Rattle.meaning.specs.LineCalls.{output_answer};
ghost use Rattle.meaning.specs.Written.{step_bytes, pattern_bytes, table_bytes};
ghost use Rattle.shapes.specs.Shapes.{pattern_of, table_of, WellFormed};
ghost use Rattle.writing.specs.BytesWritten.{bytes_of};
ghost use Rattle.writing.specs.Gives.{Gives};

use meaning::{Refusal, Step};
use members::put_members;
use shapes::{Entry, Pattern, Table};

// How many bytes a pattern takes.
pub fn pattern_length(p: Pattern) -> usize
    requires { WellFormed p }
    ensures { (result ≡ length (pattern_bytes (pattern_of p))) × (result ≤ 49) }
{
    1 + 3 * p.count
}

// Three bytes of a step, from a place on.
fn put_step(out: &mut [u8], at: usize, s: Step)
    requires { at + 3 ≤ length out.old }
    ensures { out.new ≡ sets out.old at (step_bytes s) }
{
    out[at] = s.parent;
    out[at + 1] = s.axis;
    out[at + 2] = s.label;
}

// A step count and the steps, from a place on; the place behind them.
fn put_pattern(out: &mut [u8], at: usize, p: Pattern) -> usize
    requires { WellFormed p × (at + length (pattern_bytes (pattern_of p)) ≤ length out.old) }
    ensures { (result ≡ at + length (pattern_bytes (pattern_of p))) × (out.new ≡ sets out.old at (pattern_bytes (pattern_of p))) }
{
    out[at] = p.count as u8;
    let mut next = at + 1;
    for s in p.steps() {
        put_step(out, next, *s);
        next += 3;
    }
    next
}

// An entry's members and pattern, from a place on; the place behind them.
fn put_entry(out: &mut [u8], at: usize, e: Entry) -> usize
    requires { WellFormed e.pattern × (at + length (bytes_of e) ≤ length out.old) }
    ensures { (result ≡ at + length (bytes_of e)) × (out.new ≡ sets out.old at (bytes_of e)) }
{
    put_members(out, at, e.members);
    put_pattern(out, at + 8, e.pattern)
}

// Writes a pattern where there is room for it, and says how many bytes; where there is none, the output is as found.
pub fn write_pattern(out: &mut [u8], p: Pattern) -> Result<usize, Refusal>
    requires { WellFormed p }
    ensures { Gives output_answer out.old (writes tt (pattern_bytes (pattern_of p))) result out.new }
{
    let n = pattern_length(p);
    if out.len() < n {
        return Err(Refusal::NoRoom);
    }
    put_pattern(out, 0, p);
    Ok(n)
}

// How many bytes a table takes.
pub fn table_length(t: &Table) -> usize
    ensures { (result ≡ length (table_bytes (table_of t.now))) × (result ≤ 3649) }
{
    let mut long = 1;
    for e in t.entries() {
        long += 8 + pattern_length(e.pattern);
    }
    long
}

// A count and the entries, from the output's start.
fn put_table(out: &mut [u8], t: &Table)
    requires { length (table_bytes (table_of t.now)) ≤ length out.old }
    ensures { out.new ≡ sets out.old 0 (table_bytes (table_of t.now)) }
{
    out[0] = t.count as u8;
    let mut at = 1;
    for e in t.entries() {
        at = put_entry(out, at, *e);
    }
}

// Writes a table where there is room for it, and says how many bytes; where there is none, the output is as found.
pub fn write_table(out: &mut [u8], t: &Table) -> Result<usize, Refusal>
    ensures { Gives output_answer out.old (writes tt (table_bytes (table_of t.now))) result out.new }
{
    let long = table_length(t);
    if out.len() < long {
        return Err(Refusal::NoRoom);
    }
    put_table(out, t);
    Ok(long)
}
