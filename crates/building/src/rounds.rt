// A round: the pair whose merge saves most is merged, or the entry with most steps loses its last one; then settling.
ghost use Rattle.std.specs.Prelude.{◌≡◌, ◌+◌, ◌<◌, IfSome};
ghost use Rattle.base.specs.Lists.{numbers_from};
ghost use Rattle.meaning.specs.Merging.{merge};
ghost use Rattle.meaning.specs.Building.{best_of, best_pair, cut, largest, cut_largest, merge_or_cut, round};
ghost use Rattle.shapes.specs.Shapes.{pattern_of, WellFormed, table_of};
ghost use Rattle.building.specs.Saving.{saved_by};
ghost use Rattle.building.specs.Finding.{best_is, row_from};

use merging::merge;
use settling::entries::join_at;
use settling::settle;
use shapes::{Pattern, Table};

// A pair of entries, and how many steps its merge saves.
#[derive(Clone, Copy)]
pub struct Best {
    pub saved: usize,
    pub i: usize,
    pub j: usize,
}

// The steps that the merge of two patterns has fewer than both together.
fn saves(p: Pattern, q: Pattern) -> usize
    requires { WellFormed p × WellFormed q }
    ensures { result ≡ saved_by (pattern_of p) (pattern_of q) }
{
    let m = merge(p, q).pattern;
    (p.count + q.count).saturating_sub(m.count)
}

// The best of what was found and of the pairs (i, j) with j after i.
fn best_in_row(t: &Table, i: usize, found: Option<Best>) -> Option<Best>
    requires { i < t.now.count }
    ensures { best_is result ≡ best_of (table_of t.now) (row_from t.now i (i + 1)) (best_is found) }
{
    let p = t.entries[i].pattern;
    let mut best = found;
    for j in i + 1..t.count {
        let saved = saves(p, t.entries[j].pattern);
        if best.map_or(0, |b| b.saved) < saved {
            best = Some(Best { saved, i, j });
        }
    }
    best
}

// The first of the pairs i < j that saves most, if one saves any.
fn best_pair(t: &Table) -> Option<Best>
    ensures saves_most { best_is result ≡ best_pair (table_of t.now) }
    ensures there { IfSome result (λ b. (b.i < t.now.count) × (b.j < t.now.count)) }
{
    let mut best = None;
    for i in 0..t.count {
        best = best_in_row(t, i, best);
    }
    best
}

// The pattern without its last step.
fn cut(mut p: Pattern) -> Pattern
    requires { WellFormed p }
    ensures { (pattern_of result ≡ cut (pattern_of p)) × WellFormed result }
{
    p.count = p.count.saturating_sub(1);
    p
}

// The entry with most steps, the first on ties.
fn largest(t: &Table) -> usize
    requires { 0 < t.now.count }
    ensures { (result ≡ largest (table_of t.now) (numbers_from 0 t.now.count) 0) × (result < t.now.count) }
{
    let mut i = 0;
    for (j, e) in t.entries().iter().enumerate() {
        if t.entries[i].pattern.count < e.pattern.count {
            i = j;
        }
    }
    i
}

// The entry with most steps loses its last step.
fn cut_largest(mut t: Table) -> Table
    ensures { table_of result ≡ cut_largest (table_of t) }
{
    if t.count > 0 {
        let i = largest(&t);
        t.entries[i].pattern = cut(t.entries[i].pattern);
    }
    t
}

// The merge of the pair that saves most, with both sets of members, stands at i, and j is removed; or the cut.
fn merge_or_cut(t: Table) -> Table
    ensures { table_of result ≡ merge_or_cut (best_pair (table_of t)) (table_of t) }
{
    match best_pair(&t) {
        Some(best) => {
            let made = merge(t.entries[best.i].pattern, t.entries[best.j].pattern);
            join_at(t, made.pattern, best.i, best.j)
        }
        None => cut_largest(t),
    }
}

// A round, settling included.
pub fn round(t: Table) -> Table
    ensures { table_of result ≡ round (table_of t) }
{
    let changed = merge_or_cut(t);
    settle(changed)
}
