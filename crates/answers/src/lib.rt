// The calls that work on a sheet's own patterns: does one cover another, the merge of two, the table for a limit.
#![tactic(auto)]

mod covered; // covered.rt: does one cover another
mod merged; // merged.rt: the merge of two, written
pub mod built; // built.rt: the table for a limit, written

ghost use Rattle.std.specs.Prelude.{◌≡◌};
ghost use Rattle.meaning.specs.Calls.{covers_answer, with_room, after, merge_writing, merge_answer, build_writing, build_answer};

use crate::built::build_first;
use crate::covered::covers_numbered;
use crate::merged::merge_numbered;
use meaning::{Built, Merged, Refusal};
use reading::sheet;
use subscriptions::subscriptions_in;

// Does subscription i cover subscription j?
pub fn covers(s: &[u8], i: u64, j: u64) -> Result<bool, Refusal>
    ensures { result ≡ covers_answer s.now i j }
{
    sheet(s)?;
    let subscriptions = subscriptions_in(s);
    covers_numbered(&subscriptions.beside(s), i, j)
}

// The merge of subscription i with subscription j: a step count and the steps, written from the start of the output.
pub fn merge(s: &[u8], i: u64, j: u64, out: &mut [u8]) -> Result<Merged, Refusal>
    ensures { (result ≡ merge_answer (with_room out.old (merge_writing s.now i j)))
        × (out.new ≡ after out.old (with_room out.old (merge_writing s.now i j))) }
{
    sheet(s)?;
    let subscriptions = subscriptions_in(s);
    merge_numbered(&subscriptions.beside(s), i, j, out)
}

// The table for a limit, written from the start of the output.
pub fn build(s: &[u8], limit: u16, out: &mut [u8]) -> Result<Built, Refusal>
    ensures { (result ≡ build_answer (with_room out.old (build_writing s.now limit)))
        × (out.new ≡ after out.old (with_room out.old (build_writing s.now limit))) }
{
    sheet(s)?;
    let subscriptions = subscriptions_in(s);
    build_first(&subscriptions.beside(s), limit, out)
}
