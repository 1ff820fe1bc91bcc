// Routing: which subscriptions of a sheet a document is delivered to, and whether there is one.
#![tactic(auto)]

mod by_table; // by_table.rt: entries tried, and the members of each that matches
mod wanting; // wanting.rt: the same until a member matches

ghost use Rattle.std.specs.Prelude.{◌≡◌};
ghost use Rattle.meaning.specs.Routing.{plain_route};
ghost use Rattle.meaning.specs.Calls.{matches_answer, plain_answer, table_answer, wanted_answer};
ghost use Rattle.shapes.specs.Nodes.{nodes_in};
ghost use Rattle.reading.specs.SheetPlaces.{sheet_at};
ghost use Rattle.routing.specs.Plain.{numbered_answer};
ghost use Rattle.routing.specs.ThreeJudged.{three_place};
ghost use Rattle.routing.specs.Sought.{sought_answer};

use crate::by_table::ask_entries;
use crate::wanting::seek_entries;
use documents::{document, nodes_of, sheet_and_document};
use fairness::fair_table;
use matching::{Tried, matches};
use meaning::{Refusal, Tabled};
use members::mark;
use shapes::nodes::Nodes;
use subscriptions::judged::JudgedSheet;
use subscriptions::subscriptions_in;
use tables::entries_in;

// The delivery set of the document of these nodes: each subscription is asked.
fn deliver(sheet: &JudgedSheet, nodes: &Nodes) -> u64
    ensures { result ≡ plain_route (nodes_in nodes.now) (sheet_at sheet.now.bytes.now).patterns }
{
    let mut set = 0;
    for i in 0..sheet.count() {
        set = mark(set, i, matches(nodes, sheet.pattern(i)));
    }
    set
}

// The plain route.
pub fn plain_route(s: &[u8], d: &[u8]) -> Result<u64, Refusal>
    ensures { result ≡ plain_answer s.now d.now }
{
    sheet_and_document(s, d)?;
    let subscriptions = subscriptions_in(s);
    Ok(deliver(&subscriptions.beside(s), &nodes_of(d)))
}

// Does the subscription with this number match the document of these nodes?
fn ask_numbered(sheet: &JudgedSheet, i: u64, nodes: &Nodes) -> Result<bool, Refusal>
    ensures { result ≡ numbered_answer (nodes_in nodes.now) (sheet_at sheet.now.bytes.now) i }
{
    let p = sheet.asked(i)?;
    Ok(matches(nodes, p))
}

// Does the document satisfy the subscription with this number?
pub fn subscription_matches(s: &[u8], d: &[u8], i: u64) -> Result<bool, Refusal>
    ensures { result ≡ matches_answer s.now d.now i }
{
    sheet_and_document(s, d)?;
    let subscriptions = subscriptions_in(s);
    ask_numbered(&subscriptions.beside(s), i, &nodes_of(d))
}

// The sheet first, then the table (12 last), then the document.
fn sheet_table_and_document(s: &[u8], t: &[u8], d: &[u8]) -> Result<usize, Refusal>
    ensures { result ≡ three_place s.now t.now d.now }
{
    fair_table(s, t)?;
    document(s, d)
}

// The route by a table.
pub fn table_route(s: &[u8], t: &[u8], d: &[u8]) -> Result<Tabled, Refusal>
    ensures { result ≡ table_answer s.now t.now d.now }
{
    sheet_table_and_document(s, t, d)?;
    let subscriptions = subscriptions_in(s);
    let entries = entries_in(t);
    Ok(ask_entries(&subscriptions.beside(s), &entries.beside(t), &nodes_of(d)))
}

// Does at least one shed take the document, and how many patterns were tried until that was known?
fn seek(s: &[u8], t: &[u8], d: &[u8]) -> Result<Tried, Refusal>
    ensures { result ≡ sought_answer s.now t.now d.now }
{
    sheet_table_and_document(s, t, d)?;
    let subscriptions = subscriptions_in(s);
    let entries = entries_in(t);
    Ok(seek_entries(&subscriptions.beside(s), &entries.beside(t), &nodes_of(d)))
}

// Does at least one shed take the document?
pub fn wanted(s: &[u8], t: &[u8], d: &[u8]) -> Result<bool, Refusal>
    ensures { result ≡ wanted_answer s.now t.now d.now }
{
    let asked = seek(s, t, d)?;
    Ok(asked.yes)
}
