// Does one subscription cover another?
ghost use Rattle.std.specs.Prelude.{◌≡◌};
ghost use Rattle.reading.specs.SheetPlaces.{sheet_at};
ghost use Rattle.answers.specs.Says.{covers_says};

use covering::covers;
use meaning::Refusal;
use subscriptions::judged::JudgedSheet;

// Does subscription i of a sheet that was judged cover subscription j?
pub fn covers_numbered(sheet: &JudgedSheet, i: u64, j: u64) -> Result<bool, Refusal>
    ensures { result ≡ covers_says (sheet_at sheet.now.bytes.now) i j }
{
    let p = sheet.asked(i)?;
    let q = sheet.asked(j)?;
    Ok(covers(p, q))
}
