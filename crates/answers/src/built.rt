// The table for a limit, from one entry for each subscription, written into a lent output.
ghost use Rattle.std.specs.Prelude.{◌≡◌, ◌+◌, ◌<◌, [], ◌∷◌, ◌++◌};
ghost use Rattle.meaning.specs.Numbers.{most_entries};
ghost use Rattle.meaning.specs.Calls.{with_room, after, build_answer};
ghost use Rattle.meaning.specs.Building.{entries_from};
ghost use Rattle.shapes.specs.Shapes.{entry_of, table_of, WellFormed};
ghost use Rattle.reading.specs.SheetPlaces.{sheet_at};
ghost use Rattle.answers.specs.Says.{build_says};

use building::build;
use meaning::{Built, MOST_ENTRIES, Refusal};
use members::alone;
use shapes::{Entry, Table, no_steps};
use subscriptions::judged::JudgedSheet;
use writing::write_table;

// Puts one entry more behind those of a table.
fn add_entry(t: &mut Table, e: Entry)
    requires { (t.old.count < most_entries) × WellFormed e.pattern }
    ensures { (table_of t.new ≡ table_of t.old ++ (entry_of e ∷ [])) × (t.new.count ≡ t.old.count + 1) }
{
    t.entries[t.count] = e;
    t.count += 1;
}

// One entry for each subscription.
pub fn first_entries(sheet: &JudgedSheet) -> Table
    ensures { table_of result ≡ entries_from 0 (sheet_at sheet.now.bytes.now).patterns }
{
    let empty = Entry {
        members: 0,
        pattern: no_steps(),
    };
    let mut t = Table {
        count: 0,
        entries: [empty; MOST_ENTRIES],
    };
    for i in 0..sheet.count() {
        let e = Entry {
            members: alone(i),
            pattern: sheet.pattern(i),
        };
        add_entry(&mut t, e);
    }
    t
}

// Writes the table that is built for a limit from a sheet that was judged.
pub fn build_first(sheet: &JudgedSheet, limit: u16, out: &mut [u8]) -> Result<Built, Refusal>
    ensures { (result ≡ build_answer (with_room out.old (build_says (sheet_at sheet.now.bytes.now) limit)))
        × (out.new ≡ after out.old (with_room out.old (build_says (sheet_at sheet.now.bytes.now) limit))) }
{
    let made = build(limit, first_entries(sheet));
    let length = write_table(out, &made.table)?;
    Ok(Built {
        length,
        rounds: made.rounds,
    })
}
