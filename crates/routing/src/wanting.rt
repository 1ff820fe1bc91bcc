// Does anyone want a document? Entries and members are tried in the order of the route by a table, until a member matches.
ghost use Rattle.std.specs.Prelude.{◌≡◌, not, eqb, ◌^◌, ◌<◌};
ghost use Rattle.meaning.specs.Routing.{table_route, members_say, answer_comes, tried_until_wanted};
ghost use Rattle.shapes.specs.Nodes.{nodes_in};
ghost use Rattle.shapes.specs.Shapes.{entry_of, WellFormed};
ghost use Rattle.reading.specs.SheetPlaces.{sheet_at};
ghost use Rattle.tables.specs.TableSection.{table_at};
ghost use Rattle.routing.specs.Wanting.{ask_in_turn};

use crate::by_table::try_member;
use matching::{Tried, try_pattern};
use shapes::Entry;
use shapes::nodes::Nodes;
use subscriptions::judged::JudgedSheet;
use tables::judged::JudgedTable;

// Members are tried until one matches.
fn seek_members(sheet: &JudgedSheet, nodes: &Nodes, members: u64, tried: usize) -> Tried
    requires { tried < 2 ^ 31 }
    ensures { result ≡ ask_in_turn (members_say (nodes_in nodes.now) (sheet_at sheet.now.bytes.now).patterns members) tried }
{
    let mut so_far = tried;
    for i in 0..sheet.count() {
        let asked = try_member(sheet, i, nodes, members, so_far);
        if asked.yes {
            return asked;
        }
        so_far = asked.tried;
    }
    Tried {
        yes: false,
        tried: so_far,
    }
}

// An entry is tried, and if it matches its members until one does. That the entry matches decides nothing.
fn seek_entry(sheet: &JudgedSheet, nodes: &Nodes, e: Entry, tried: usize) -> Tried
    requires { WellFormed e.pattern × (tried < 2 ^ 30) }
    ensures { result ≡ ask_in_turn (answer_comes (nodes_in nodes.now) (sheet_at sheet.now.bytes.now).patterns (entry_of e)) tried }
{
    let asked = try_pattern(nodes, e.pattern, tried);
    if asked.yes {
        return seek_members(sheet, nodes, e.members, asked.tried);
    }
    asked
}

// Entries are tried until a member of one matches: whether one does, and how many patterns were tried.
pub fn seek_entries(sheet: &JudgedSheet, table: &JudgedTable, nodes: &Nodes) -> Tried
    ensures { (result.yes ≡ not (eqb (table_route (nodes_in nodes.now) (table_at table.now.bytes.now) (sheet_at sheet.now.bytes.now).patterns) 0))
        × (result.tried ≡ tried_until_wanted (nodes_in nodes.now) (table_at table.now.bytes.now) (sheet_at sheet.now.bytes.now).patterns) }
{
    let mut so_far = 0;
    for j in 0..table.count() {
        let asked = seek_entry(sheet, nodes, table.entry(j), so_far);
        if asked.yes {
            return asked;
        }
        so_far = asked.tried;
    }
    Tried {
        yes: false,
        tried: so_far,
    }
}
