// Patterns, entries and tables by value, and what each stands for (specs/Patterns.antt, specs/Shapes.antt).
#![tactic(auto)]

pub mod nodes; // nodes.rt: the nodes of a document, as they stand in its bytes

ghost use Rattle.std.specs.Prelude.{◌≡◌, ◌≤◌, length, take};
ghost use Rattle.std.proofs.Props.{props};
ghost use Rattle.meaning.specs.Numbers.{most_entries};
ghost use Rattle.shapes.specs.Patterns.{steps_in, no_steps, WellFormed, WellFormedAll, step_coded};

use meaning::{MOST_ENTRIES, MOST_STEPS, Step};

// A pattern: the first `count` of its steps, in preorder.
#[derive(Clone, Copy)]
pub struct Pattern {
    pub count: usize,
    pub steps: [Step; MOST_STEPS],
}

impl Pattern {
    // The steps that are there.
    pub fn steps(&self) -> &[Step]
        requires { WellFormed self.now }
        ensures { result.now ≡ steps_in self.now }
    {
        &self.steps[..self.count]
    }
}

// An entry: bit i of the members is subscription i.
#[derive(Clone, Copy)]
pub struct Entry {
    pub members: u64,
    pub pattern: Pattern,
}

// A table: the first `count` of its entries, whose patterns are well formed.
#[derive(Clone, Copy)]
pub struct Table {
    pub count: usize,
    pub entries: [Entry; MOST_ENTRIES],
    pub ghost few: { count ≤ most_entries },
    pub ghost full: { length entries ≡ most_entries },
    pub ghost patterns: { WellFormedAll (take count entries) } by { Prim.hlevel (props, step_coded) },
}

impl Table {
    ghost use Rattle.meaning.specs.Building.{steps_together};
    ghost use Rattle.shapes.specs.Shapes.{entries_in, table_of};

    // The entries that are there.
    pub fn entries(&self) -> &[Entry]
        ensures { result.now ≡ entries_in self.now }
    {
        &self.entries[..self.count]
    }

    // The steps of all entries together.
    pub fn steps_together(&self) -> usize
        ensures { (result ≡ steps_together (table_of self.now)) × (result ≤ 1024) }
    {
        let mut n = 0;
        for e in self.entries() {
            n += e.pattern.count;
        }
        n
    }
}

// The pattern without steps.
pub fn no_steps() -> Pattern
    ensures { result ≡ no_steps }
{
    Pattern {
        count: 0,
        steps: [Step {
            parent: 0,
            axis: 0,
            label: 0,
        }; MOST_STEPS],
    }
}
