// The table check: whether a table is fair beside its sheet. The members are lent: by value each call would copy them on the
// stack.
#![tactic(auto)]

ghost use Rattle.std.specs.Prelude.{◌≤◌, ◌<◌, ◌≡◌, length, get_or};
ghost use Rattle.base.specs.Lists.{every};
ghost use Rattle.meaning.specs.Numbers.{number_given, most_entries, most_patterns};
ghost use Rattle.meaning.specs.Building.{no_entry};
ghost use Rattle.meaning.specs.Fair.{entries_of, one_that_covers, each_in_one};
ghost use Rattle.meaning.specs.Calls.{table_number};
ghost use Rattle.shapes.specs.Shapes.{pattern_of, WellFormed};
ghost use Rattle.reading.specs.SheetPlaces.{sheet_at};
ghost use Rattle.subscriptions.specs.Taken.{subscriptions_of};
ghost use Rattle.subscriptions.specs.Subscribed.{SubscriptionsStand};
ghost use Rattle.tables.specs.TableSection.{table_at, table_entries, entries_lent};
ghost use Rattle.tables.specs.TableJudged.{EntriesStand};
ghost use Rattle.fairness.specs.EntryMembers.{MembersStand};
ghost use Rattle.fairness.specs.Weighing.{weighed};
ghost use Rattle.fairness.specs.Each.{is_fit};
ghost use Rattle.fairness.specs.FairJudged.{fair_at, fair_place};

use covering::covers;
use meaning::{MOST_ENTRIES, Refusal};
use members::{is_member, members_fit};
use shapes::Pattern;
use subscriptions::judged::JudgedSheet;
use subscriptions::subscriptions_in;
use tables::judged::JudgedTable;
use tables::{entries_in, sheet_and_table};

// How the entries so far hold a subscription.
#[derive(Clone, Copy)]
enum Held {
    // None has it.
    Nowhere,
    // One has it, and covers it.
    Covered,
    // One that does not cover it, or more than one.
    Wrongly,
}

// No entry is without members, and no member is outside the sheet, of n subscriptions.
fn all_fit(table: &JudgedTable, n: usize) -> bool
    requires { n ≤ most_patterns }
    ensures { result ≡ every (is_fit n) (table_at table.now.bytes.now) }
{
    for j in 0..table.count() {
        if !members_fit(table.members(j), n) {
            return false;
        }
    }
    true
}

// Takes out the members of every entry: each is asked for every subscription.
fn take_members(members: &mut [u64; MOST_ENTRIES], table: &JudgedTable)
    requires { length members.old ≡ most_entries }
    ensures { MembersStand table.now.bytes.now (entries_lent (length table.now.places.now) table.now.places.now) members.new }
{
    for j in 0..table.count() {
        members[j] = table.members(j);
    }
}

// Weighs entry j, with these members, for subscription i, whose pattern is p.
fn weigh(table: &JudgedTable, j: usize, members: u64, i: usize, p: Pattern, held: Held) -> Held
    requires { (j < length (table_at table.now.bytes.now)) × (members ≡ (get_or (table_at table.now.bytes.now) j no_entry).members)
        × (i < most_patterns) × WellFormed p }
    ensures { result ≡ weighed i (pattern_of p) (get_or (table_at table.now.bytes.now) j no_entry) held }
{
    if !is_member(members, i) {
        return held;
    }
    match held {
        Held::Nowhere => {
            if covers(table.entry(j).pattern, p) {
                return Held::Covered;
            }
            Held::Wrongly
        }
        Held::Covered | Held::Wrongly => Held::Wrongly,
    }
}

// Is subscription i, whose pattern is p, in exactly one entry, and does that entry cover it?
fn stands(table: &JudgedTable, members: &[u64; MOST_ENTRIES], i: usize, p: Pattern) -> bool
    requires { MembersStand table.now.bytes.now (entries_lent (length table.now.places.now) table.now.places.now) members.now
        × (i < most_patterns) × WellFormed p }
    ensures { result ≡ one_that_covers (pattern_of p) (entries_of i (table_at table.now.bytes.now)) }
{
    let mut held = Held::Nowhere;
    for j in 0..table.count() {
        held = weigh(table, j, members[j], i, p, held);
    }
    matches!(held, Held::Covered)
}

// Is each subscription in exactly one entry, and does that entry cover it?
fn all_stand(sheet: &JudgedSheet, table: &JudgedTable, members: &[u64; MOST_ENTRIES]) -> bool
    requires { MembersStand table.now.bytes.now (entries_lent (length table.now.places.now) table.now.places.now) members.now }
    ensures { result ≡ each_in_one 0 (sheet_at sheet.now.bytes.now).patterns (table_at table.now.bytes.now) }
{
    for i in 0..sheet.count() {
        if !stands(table, members, i, sheet.pattern(i)) {
            return false;
        }
    }
    true
}

// Is the table fair?
fn is_fair(s: &[u8], t: &[u8]) -> bool
    requires { SubscriptionsStand s.now (subscriptions_of s.now) × EntriesStand t.now (table_entries t.now) }
    ensures { result ≡ fair_at s.now t.now }
{
    let subscriptions = subscriptions_in(s);
    let sheet = subscriptions.beside(s);
    let entries = entries_in(t);
    let table = entries.beside(t);
    if !all_fit(&table, sheet.count()) {
        return false;
    }
    let mut members = [0; MOST_ENTRIES];
    take_members(&mut members, &table);
    all_stand(&sheet, &table, &members)
}

// Where a table ends that passes the table check, the sheet judged first, or the first fault; 12 last.
pub fn fair_table(s: &[u8], t: &[u8]) -> Result<usize, Refusal>
    ensures { result ≡ fair_place s.now t.now }
{
    let x = sheet_and_table(s, t)?;
    if is_fair(s, t) {
        return Ok(x);
    }
    Err(Refusal::NotFair)
}

// Does a table beside a sheet pass the table check?
pub fn table_check(s: &[u8], t: &[u8]) -> Result<(), Refusal>
    ensures { number_given result ≡ table_number s.now t.now }
{
    fair_table(s, t)?;
    Ok(())
}
