// What is printed for two bytes of limit and a sheet: the table that is built, or the refusal.
ghost use Rattle.std.specs.Prelude.{◌≡◌};
ghost use Rattle.meaning.specs.Building.{build};
ghost use Rattle.meaning.specs.Printing.{table_text, printed};
ghost use Rattle.reading.specs.SheetPlaces.{sheet_at};
ghost use Rattle.texts.specs.PutText.{written, put};

use crate::put_table;
use answers::built::first_entries;
use building::build;
use meaning::Refusal;
use places::pair_at;
use reading::sheet;
use subscriptions::judged::JudgedSheet;
use subscriptions::subscriptions_in;
use texts::put_refused;

// The table that is built for a limit from a sheet that was judged, as text.
fn put_built(sheet: &JudgedSheet, limit: u16, out: &mut [u8]) -> usize
    ensures { written out.new result
        ≡ put (written out.old 0) (table_text (sheet_at sheet.now.bytes.now) (build limit (sheet_at sheet.now.bytes.now).patterns)) }
{
    let made = build(limit, first_entries(sheet));
    let t = made.table;
    put_table(out, sheet.bytes, t, sheet.count(), made.rounds)
}

// Puts the text at the start of the output, as far as there is room, and answers how long it is.
pub fn put_text(input: &[u8], out: &mut [u8]) -> usize
    ensures { written out.new result ≡ put (written out.old 0) (printed input.now) }
{
    if input.len() < 2 {
        return put_refused(out, Refusal::EndsEarly.number() as usize);
    }
    let limit = pair_at(input, 0);
    let s = &input[2..];
    match sheet(s) {
        Ok(_) => {
            let subscriptions = subscriptions_in(s);
            put_built(&subscriptions.beside(s), limit as u16, out)
        }
        Err(why) => put_refused(out, why.number() as usize),
    }
}
