// Entries of a table: two are joined, one is removed.
ghost use Rattle.std.specs.Prelude.{◌≡◌, ◌<◌};
ghost use Rattle.base.specs.Lists.{without};
ghost use Rattle.meaning.specs.Building.{pair, join_at};
ghost use Rattle.shapes.specs.Shapes.{pattern_of, WellFormed, table_of};

use members::union;
use shapes::{Entry, Pattern, Table};

// Entry j is removed, and the later ones are moved down.
fn remove(t: &mut Table, j: usize)
    requires { j < t.old.count }
    ensures { table_of t.new ≡ without j (table_of t.old) }
{
    t.entries.copy_within(j + 1..t.count, j);
    t.count -= 1;
}

// The pattern stands at i with the members of i and j, and j is removed.
pub fn join_at(mut t: Table, p: Pattern, i: usize, j: usize) -> Table
    requires { WellFormed p × (i < t.count) × (j < t.count) }
    ensures { table_of result ≡ join_at (pattern_of p) (pair i j) (table_of t) }
{
    let members = union(t.entries[i].members, t.entries[j].members);
    t.entries[i] = Entry {
        members,
        pattern: p,
    };
    remove(&mut t, j);
    t
}
