// Building a table for a limit: settling, rounds, and how many rounds there were, with the entries by value.
#![tactic(auto)]

pub mod rounds; // rounds.rt: the pair that saves most, the cut, a round

ghost use Rattle.std.specs.Prelude.{◌≡◌, ◌+◌, ◌≤◌, ◌<◌};
ghost use Rattle.meaning.specs.Building.{steps_together, settle, round};
ghost use Rattle.shapes.specs.Shapes.{table_of};
ghost use Rattle.building.specs.Counting.{build_from};

use crate::rounds::round;
use settling::settle;
use shapes::Table;

// A table and the number of rounds that made it.
#[derive(Clone, Copy)]
pub struct Made {
    pub table: Table,
    pub rounds: usize,
}

impl Made {
    // One round more, and it is counted.
    fn one_more(self) -> Made
        requires { self.rounds < 1024 }
        ensures { (table_of result.table ≡ round (table_of self.table)) × (result.rounds ≡ self.rounds + 1) }
    {
        Made {
            table: round(self.table),
            rounds: self.rounds + 1,
        }
    }
}

// The table for a limit, from the first entries on, and the number of rounds.
pub fn build(limit: u16, first: Table) -> Made
    ensures { (table_of result.table ≡ (build_from limit (table_of first)).entries)
        × (result.rounds ≡ (build_from limit (table_of first)).rounds) × (result.rounds ≤ steps_together (settle (table_of first))) }
{
    let most = usize::from(limit);
    let settled = settle(first);
    let mut m = Made {
        table: settled,
        rounds: 0,
    };
    let mut left = settled.steps_together();
    while most < left {
        m = m.one_more();
        left = m.table.steps_together();
    }
    m
}
