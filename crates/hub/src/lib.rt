// The hub's calls: any bytes and any numbers in, an answer out. None requires anything.
#![tactic(auto)]

ghost use Rattle.meaning.specs.Numbers.{number_given};
ghost use Rattle.meaning.specs.Given.{asked_given, merged_given, built_given, lined_given, output_given, routed_given, tabled_given};
ghost use Rattle.meaning.specs.Promises.{SheetCheckGives, DocumentCheckGives, TableCheckGives, MatchesGives, CoversGives, MergeGives, BuildGives};
ghost use Rattle.meaning.specs.Promises.{ReadLineGives, WritePatternGives, WriteSubscriptionGives};
ghost use Rattle.meaning.specs.Promises.{PlainRouteGives, TableRouteGives, WantedGives, ShedsGives, LowestShedGives, LabelNumberGives, LabelBytesGives};

use meaning::{Built, LineRefusal, Merged, Refusal, Tabled};
use routing::subscription_matches;

// Is a sheet sound?
pub fn sheet_check(s: &[u8]) -> Result<(), Refusal>
    ensures { SheetCheckGives s.now (number_given result) }
{
    reading::sheet_check(s)
}

// Is a document sound beside a sheet, and the sheet?
pub fn document_check(s: &[u8], d: &[u8]) -> Result<(), Refusal>
    ensures { DocumentCheckGives s.now d.now (number_given result) }
{
    documents::document_check(s, d)
}

// Are a table and its sheet sound, and is the table fair?
pub fn table_check(s: &[u8], t: &[u8]) -> Result<(), Refusal>
    ensures { TableCheckGives s.now t.now (number_given result) }
{
    fairness::table_check(s, t)
}

// Does a subscription match a document?
pub fn matches(s: &[u8], d: &[u8], i: u64) -> Result<bool, Refusal>
    ensures { MatchesGives s.now d.now i (asked_given result) }
{
    subscription_matches(s, d, i)
}

// Does subscription i cover subscription j?
pub fn covers(s: &[u8], i: u64, j: u64) -> Result<bool, Refusal>
    ensures { CoversGives s.now i j (asked_given result) }
{
    answers::covers(s, i, j)
}

// The merge of subscription i with subscription j: a step count and the steps, written from the start of the output.
pub fn merge(s: &[u8], i: u64, j: u64, out: &mut [u8]) -> Result<Merged, Refusal>
    ensures { MergeGives s.now i j out.old (merged_given result) out.new }
{
    answers::merge(s, i, j, out)
}

// The table for a limit, written from the start of the output.
pub fn build(s: &[u8], limit: u16, out: &mut [u8]) -> Result<Built, Refusal>
    ensures { BuildGives s.now limit out.old (built_given result) out.new }
{
    answers::build(s, limit, out)
}

// A line of the notation, read with a sheet's labels: a step count and the steps, written from the start of the output.
pub fn read_line(s: &[u8], line: &[u8], out: &mut [u8]) -> Result<usize, LineRefusal>
    ensures { ReadLineGives s.now line.now out.old (lined_given result) out.new }
{
    lines::read_line(s, line, out)
}

// A pattern's bytes as a line, written from the start of the output.
pub fn write_pattern(s: &[u8], p: &[u8], out: &mut [u8]) -> Result<usize, Refusal>
    ensures { WritePatternGives s.now p.now out.old (output_given result) out.new }
{
    spelling::write_pattern(s, p, out)
}

// A subscription as a line, written from the start of the output.
pub fn write_subscription(s: &[u8], i: u64, out: &mut [u8]) -> Result<usize, Refusal>
    ensures { WriteSubscriptionGives s.now i out.old (output_given result) out.new }
{
    spelling::write_subscription(s, i, out)
}

// The plain route: which subscriptions a document is delivered to.
pub fn plain_route(s: &[u8], d: &[u8]) -> Result<u64, Refusal>
    ensures { PlainRouteGives s.now d.now (routed_given result) }
{
    routing::plain_route(s, d)
}

// The route by a table: the same subscriptions, and how many patterns were tried.
pub fn table_route(s: &[u8], t: &[u8], d: &[u8]) -> Result<Tabled, Refusal>
    ensures { TableRouteGives s.now t.now d.now (tabled_given result) }
{
    routing::table_route(s, t, d)
}

// Does at least one shed take the document?
pub fn wanted(s: &[u8], t: &[u8], d: &[u8]) -> Result<bool, Refusal>
    ensures { WantedGives s.now t.now d.now (asked_given result) }
{
    routing::wanted(s, t, d)
}

// Is there a label with this number?
pub fn label_number(s: &[u8], d: &[u8], n: u64) -> Result<(), Refusal>
    ensures { LabelNumberGives s.now d.now n (number_given result) }
{
    documents::label_check(s, d, n)
}

// The bytes of a label: the part itself of the sheet or of the document; empty on a refusal.
pub fn label_bytes<'a>(s: &'a [u8], d: &'a [u8], n: u64) -> &'a [u8]
    ensures { LabelBytesGives s.now d.now n result.now }
{
    documents::label_bytes(s, d, n)
}

// How many sheds get a notice.
pub fn sheds(set: u64) -> u32
    ensures { ShedsGives set result }
{
    members::sheds(set)
}

// The lowest shed, 64 when there is none.
pub fn lowest_shed(set: u64) -> u32
    ensures { LowestShedGives set result }
{
    members::lowest_shed(set)
}
