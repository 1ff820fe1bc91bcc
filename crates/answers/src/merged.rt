// The merge of two subscriptions, written into a lent output.
ghost use Rattle.std.specs.Prelude.{◌≡◌};
ghost use Rattle.meaning.specs.Calls.{with_room, after, merge_answer};
ghost use Rattle.meaning.specs.Merging.{merge};
ghost use Rattle.shapes.specs.Shapes.{pattern_of, WellFormed};
ghost use Rattle.reading.specs.SheetPlaces.{sheet_at};
ghost use Rattle.answers.specs.Says.{merge_says, marked_says};

use meaning::{Merged, Refusal};
use merging::merge;
use offering::Marked;
use subscriptions::judged::JudgedSheet;
use writing::write_pattern;

// Writes what a merge gave.
fn write_merge(m: Marked, out: &mut [u8]) -> Result<Merged, Refusal>
    requires { WellFormed m.pattern }
    ensures { (result ≡ merge_answer (with_room out.old (marked_says (pattern_of m.pattern) m.clipped)))
        × (out.new ≡ after out.old (with_room out.old (marked_says (pattern_of m.pattern) m.clipped))) }
{
    let length = write_pattern(out, m.pattern)?;
    Ok(Merged {
        length,
        clipped: m.clipped,
    })
}

// Writes the merge of subscription i of a sheet that was judged with subscription j.
pub fn merge_numbered(
    sheet: &JudgedSheet,
    i: u64,
    j: u64,
    out: &mut [u8],
) -> Result<Merged, Refusal>
    ensures { (result ≡ merge_answer (with_room out.old (merge_says (sheet_at sheet.now.bytes.now) i j)))
        × (out.new ≡ after out.old (with_room out.old (merge_says (sheet_at sheet.now.bytes.now) i j))) }
{
    let p = sheet.asked(i)?;
    let q = sheet.asked(j)?;
    write_merge(merge(p, q), out)
}
