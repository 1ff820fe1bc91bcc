// Settling: where entry i covers entry j, j's members go to i and j is removed, until there is no such pair.
#![tactic(auto)]

pub mod entries; // entries.rt: joining two entries

ghost use Rattle.std.specs.Prelude.{◌≡◌, ◌-◌, ◌<◌, ◌≤◌, MatchOption};
ghost use Rattle.base.specs.Loops.{scan};
ghost use Rattle.meaning.specs.Building.{settle};
ghost use Rattle.shapes.specs.Shapes.{table_of};
ghost use Rattle.settling.specs.Settled.{covers_at};

use crate::entries::join_at;
use covering::covers;
use shapes::Table;

// The first entry from a place on that entry i covers, itself aside.
fn first_covered(t: &Table, i: usize, from: usize) -> Option<usize>
    requires { (i < t.now.count) × (from ≤ t.now.count) }
    ensures { MatchOption result (t.now.count ≡ scan (covers_at (table_of t.now) i) (t.now.count - from) from)
        (λ j. (j ≡ scan (covers_at (table_of t.now) i) (t.now.count - from) from) × (j < t.now.count)) }
{
    let p = t.entries[i].pattern;
    for k in from..t.count {
        if k != i && covers(p, t.entries[k].pattern) {
            return Some(k);
        }
    }
    None
}

// No pair is left where entry i covers entry j. What stands before the pair last found stays as it was, so the search goes on there.
pub fn settle(mut t: Table) -> Table
    ensures { table_of result ≡ settle (table_of t) }
{
    let mut i = 0;
    let mut from = 0;
    while i < t.count {
        if let Some(j) = first_covered(&t, i, from) {
            let p = t.entries[i].pattern;
            t = join_at(t, p, i, j);
            from = j;
            if j < i {
                i -= 1;
            }
        } else {
            i += 1;
            from = 0;
        }
    }
    t
}
