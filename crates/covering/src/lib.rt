// Whether one pattern covers another: whether its steps can be laid onto the other's.
#![tactic(auto)]

pub mod steps; // steps.rt: where one step may lie, by itself

ghost use Rattle.std.specs.Prelude.{◌≡◌, ◌≤◌, ◌<◌, length, set};
ghost use Rattle.meaning.specs.Covering.{covers};
ghost use Rattle.shapes.specs.Shapes.{pattern_of, steps_in, WellFormed};
ghost use Rattle.covering.specs.Questions.{children_lie, some_fits, lies_at};
ghost use Rattle.covering.specs.PairNotes.{pair_count, PairOfSteps, cell_of, note_of, noted, known_at, Noted};

use meaning::MOST_STEPS;
use shapes::Pattern;
use steps::{any_or_same, may_lie_below, starred_leaf};

// Pairs of steps, one of each of two patterns.
pub const PAIRS: usize = MOST_STEPS * MOST_STEPS;

// What is noted of each pair: 1 that the children of the one lie below the other, 2 that they don't; any other number says
// nothing. Notes are numbers since whoever lends them may hold any (docs/DESIGN-PASS.md).
pub type Notes = [u8; PAIRS];

// The cell of a pair of steps, where there is one for each.
pub fn cell(v: usize, w: usize) -> usize
    requires { PairOfSteps v w }
    ensures { (result ≡ cell_of v w) × (result < pair_count) }
{
    (v - 1) * MOST_STEPS + (w - 1)
}

// What a note says.
fn said(note: u8) -> Option<bool>
    ensures { result ≡ noted note }
{
    match note {
        1 => Some(true),
        2 => Some(false),
        _ => None,
    }
}

// What is known of step v of A at step w of B before its children are asked: whether it lies there. Where it may by itself,
// what is noted of its children decides.
fn known_at(may: bool, v: usize, w: usize, notes: &Notes) -> Option<bool>
    requires { PairOfSteps v w }
    ensures { result ≡ known_at may v w notes.now }
{
    if may {
        said(notes[cell(v, w)])
    } else {
        Some(false)
    }
}

// Notes whether the children of v lie below w, and hands the answer on.
fn note(v: usize, w: usize, lie: bool, notes: &mut Notes) -> bool
    requires { (length notes.old ≡ pair_count) × PairOfSteps v w }
    ensures { (result ≡ lie) × (notes.new ≡ set notes.old (cell_of v w) (note_of lie)) }
{
    notes[cell(v, w)] = if lie { 1 } else { 2 };
    lie
}

// All children of step v of A find a place below step w of B.
#[cycle(all_lie_some_fits)]
fn all_lie(a: Pattern, v: usize, b: Pattern, w: usize, notes: &mut Notes) -> bool
    requires { Noted a b notes.old × (v ≤ a.count) × (w ≤ b.count) }
    ensures { (result ≡ children_lie (steps_in a) v (steps_in b) w) × Noted a b notes.new }
{
    for k in v..a.count {
        let s = a.steps[k];
        if usize::from(s.parent) == v && !some_fits(a, k + 1, b, w, notes) {
            return false;
        }
    }
    true
}

// Some place below step w of B fits step k of A. The steps below w stand right after it, up to one whose parent is above w.
#[cycle(all_lie_some_fits)]
fn some_fits(a: Pattern, k: usize, b: Pattern, w: usize, notes: &mut Notes) -> bool
    requires { Noted a b notes.old × (1 ≤ k) × (k ≤ a.count) × (w ≤ b.count) }
    ensures { (result ≡ some_fits (steps_in a) k (steps_in b) w) × Noted a b notes.new }
{
    let s = a.steps[k - 1];
    // What the next step hangs on, if there is one: on k itself only if k has child steps.
    let next = if k < a.count {
        usize::from(a.steps[k].parent)
    } else {
        0
    };
    let starred = starred_leaf(s, k, next);
    for u in w..b.count {
        let t = b.steps[u];
        if usize::from(t.parent) < w {
            return false;
        }
        let fits = match known_at(may_lie_below(s, starred, w, t), k, u + 1, notes) {
            Some(known) => known,
            None => note(k, u + 1, all_lie(a, k, b, u + 1, notes), notes),
        };
        if fits {
            return true;
        }
    }
    false
}

// Step v of A can be laid at step w of B: label and children, axes aside.
pub fn lies_at(a: Pattern, v: usize, b: Pattern, w: usize, notes: &mut Notes) -> bool
    requires { Noted a b notes.old × (1 ≤ v) × (v ≤ a.count) × (1 ≤ w) × (w ≤ b.count) }
    ensures { (result ≡ lies_at (steps_in a) v (steps_in b) w) × Noted a b notes.new }
{
    let s = a.steps[v - 1];
    let t = b.steps[w - 1];
    match known_at(any_or_same(s.label, t.label), v, w, notes) {
        Some(known) => known,
        None => note(v, w, all_lie(a, v, b, w, notes), notes),
    }
}

// A covers B, by notes of earlier questions about the two.
pub fn covers_noting(a: Pattern, b: Pattern, notes: &mut Notes) -> bool
    requires { Noted a b notes.old }
    ensures { (result ≡ covers (pattern_of a) (pattern_of b)) × Noted a b notes.new }
{
    all_lie(a, 0, b, 0, notes)
}

// A covers B.
pub fn covers(a: Pattern, b: Pattern) -> bool
    requires { WellFormed a × WellFormed b }
    ensures { result ≡ covers (pattern_of a) (pattern_of b) }
{
    let mut notes = [0; PAIRS];
    covers_noting(a, b, &mut notes)
}
