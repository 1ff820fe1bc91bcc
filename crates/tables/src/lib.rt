// Reading the bytes of a table beside a sheet: entries are judged by places in the lent bytes (specs/TableSection.antt), and
// what that gives is what a table means. Entries by value from their places.
#![tactic(auto)]

pub mod judged; // judged.rt: a table that was judged, lent with the places of its entries

ghost use Rattle.std.specs.Prelude.{◌≡◌, ◌+◌, ◌*◌, ◌-◌, ◌<◌, leb, length};
ghost use Rattle.base.specs.Loops.{run};
ghost use Rattle.places.specs.NumberRead.{number_in};
ghost use Rattle.tables.specs.TableSection.{entry_place, entry_section, table_place, sheet_table_place, entry_taken, table_entries};
ghost use Rattle.places.specs.InTurn.{each_place};

use meaning::{MOST_ENTRIES, Refusal};
use places::{byte_at, end, pair_at, within};
use reading::patterns::pattern;
use reading::sheet;
use shapes::Entry;
use subscriptions::{pattern_at, places_from};

// How many entries a table has, and the place of each; behind those, the places go on in the same way.
#[derive(Clone, Copy)]
pub struct Entries {
    pub count: usize,
    pub places: [usize; MOST_ENTRIES],
}

// There are n bytes from x on.
fn enough(t: &[u8], x: usize, n: usize) -> bool
    ensures { result ≡ leb n (length t.now - x) }
{
    n <= t.len().saturating_sub(x)
}

// The members of the entry at x: eight bytes, the low one first.
pub fn members_at(t: &[u8], x: usize) -> u64
    ensures { result ≡ number_in t.now x 8 }
{
    if t.len() <= x {
        return 0;
    }
    let a = pair_at(t, x) as u64;
    let b = pair_at(t, x + 2) as u64;
    let c = pair_at(t, x + 4) as u64;
    let d = pair_at(t, x + 6) as u64;
    a + 65536 * (b + 65536 * (c + 65536 * d))
}

// An entry at x, with so many labels.
fn entry(t: &[u8], known: usize, x: usize) -> Result<usize, Refusal>
    ensures { result ≡ entry_place t.now known x }
{
    if enough(t, x, 8) {
        return pattern(t, known, x + 8);
    }
    Err(Refusal::EndsEarly)
}

// The n entries from the place p on, with so many labels.
fn entries_from(t: &[u8], known: usize, p: usize, n: usize) -> Result<usize, Refusal>
    ensures { result ≡ run (each_place (entry_section t.now known)) n 0 p }
{
    let mut x = p;
    for _ in 0..n {
        x = entry(t, known, x)?;
    }
    Ok(x)
}

// Where a table ends, beside a sheet that was judged, or its first fault.
fn table(s: &[u8], t: &[u8]) -> Result<usize, Refusal>
    ensures { result ≡ table_place s.now t.now }
{
    if t.len() == 0 {
        return Err(Refusal::EndsEarly);
    }
    let n = byte_at(t, 0);
    if MOST_ENTRIES < n {
        return Err(Refusal::CountOutside);
    }
    let y = entries_from(t, byte_at(s, 0), 1, n)?;
    end(t, y)
}

// The sheet first, then the table.
pub fn sheet_and_table(s: &[u8], t: &[u8]) -> Result<usize, Refusal>
    ensures { result ≡ sheet_table_place s.now t.now }
{
    sheet(s)?;
    table(s, t)
}

// The entry at x by value.
pub fn entry_at(t: &[u8], x: usize) -> Entry
    ensures { result ≡ entry_taken t.now x }
{
    Entry {
        members: members_at(t, x),
        pattern: pattern_at(t, x.saturating_add(8)),
    }
}

// The entries of a table.
pub fn entries_in(t: &[u8]) -> Entries
    ensures { result ≡ table_entries t.now }
{
    let count = within(byte_at(t, 0), MOST_ENTRIES);
    let places = places_from(t, 1, 8);
    Entries { count, places }
}
