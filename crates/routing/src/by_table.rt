// The route by a table: its entries are tried, and the members of each that matches.
ghost use Rattle.std.specs.Prelude.{◌≡◌, ◌^◌, ◌<◌, length};
ghost use Rattle.meaning.specs.Satisfying.{satisfies};
ghost use Rattle.meaning.specs.Calls.{subscription};
ghost use Rattle.shapes.specs.Nodes.{nodes_in};
ghost use Rattle.shapes.specs.Shapes.{entry_of, WellFormed};
ghost use Rattle.reading.specs.SheetPlaces.{sheet_at};
ghost use Rattle.tables.specs.TableSection.{table_at};
ghost use Rattle.routing.specs.Tabling.{member_try, member_tried, ask_members, ask_entry, route_by};

use matching::{Tried, try_pattern};
use meaning::Tabled;
use members::{is_member, mark};
use shapes::Entry;
use shapes::nodes::Nodes;
use subscriptions::judged::JudgedSheet;
use tables::judged::JudgedTable;

// Subscription i is tried if it is a member: does it match, and how many were tried with it.
pub fn try_member(sheet: &JudgedSheet, i: usize, nodes: &Nodes, members: u64, tried: usize) -> Tried
    requires { (i < length (sheet_at sheet.now.bytes.now).patterns) × (tried < 2 ^ 32) }
    ensures { result ≡ member_try members i (satisfies (nodes_in nodes.now) (subscription (sheet_at sheet.now.bytes.now) i)) tried }
{
    if is_member(members, i) {
        return try_pattern(nodes, sheet.pattern(i), tried);
    }
    Tried { yes: false, tried }
}

// A member is tried, and marked if it matches.
fn ask_member(sheet: &JudgedSheet, i: usize, nodes: &Nodes, members: u64, route: Tabled) -> Tabled
    requires { (i < length (sheet_at sheet.now.bytes.now).patterns) × (route.tried < 2 ^ 32) }
    ensures { result ≡ member_tried members i (satisfies (nodes_in nodes.now) (subscription (sheet_at sheet.now.bytes.now) i)) route }
{
    let asked = try_member(sheet, i, nodes, members, route.tried);
    let set = mark(route.set, i, asked.yes);
    Tabled {
        set,
        tried: asked.tried,
    }
}

// All members are tried.
fn ask_members(sheet: &JudgedSheet, nodes: &Nodes, members: u64, route: Tabled) -> Tabled
    requires { route.tried < 2 ^ 31 }
    ensures { result ≡ ask_members (nodes_in nodes.now) (sheet_at sheet.now.bytes.now).patterns members route }
{
    let mut so_far = route;
    for i in 0..sheet.count() {
        so_far = ask_member(sheet, i, nodes, members, so_far);
    }
    so_far
}

// An entry is tried, and all its members if it matches.
fn ask_entry(sheet: &JudgedSheet, nodes: &Nodes, e: Entry, route: Tabled) -> Tabled
    requires { WellFormed e.pattern × (route.tried < 2 ^ 30) }
    ensures { result ≡ ask_entry (nodes_in nodes.now) (sheet_at sheet.now.bytes.now).patterns (entry_of e) route }
{
    let asked = try_pattern(nodes, e.pattern, route.tried);
    let so_far = Tabled {
        set: route.set,
        tried: asked.tried,
    };
    if asked.yes {
        return ask_members(sheet, nodes, e.members, so_far);
    }
    so_far
}

// All entries are tried, and the members of each that matches.
pub fn ask_entries(sheet: &JudgedSheet, table: &JudgedTable, nodes: &Nodes) -> Tabled
    ensures { result ≡ route_by (nodes_in nodes.now) (sheet_at sheet.now.bytes.now).patterns (table_at table.now.bytes.now) }
{
    let mut so_far = Tabled { set: 0, tried: 0 };
    for j in 0..table.count() {
        so_far = ask_entry(sheet, nodes, table.entry(j), so_far);
    }
    so_far
}
