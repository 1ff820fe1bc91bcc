// A table that was judged, lent with the places of its entries.
ghost use Rattle.std.specs.Prelude.{◌≡◌, ◌≤◌, ◌<◌, length, get_or};
ghost use Rattle.std.proofs.Props.{props};
ghost use Rattle.meaning.specs.Building.{no_entry};
ghost use Rattle.meaning.specs.Numbers.{most_entries};
ghost use Rattle.shapes.specs.Shapes.{entry_of, WellFormed};
ghost use Rattle.tables.specs.TableSection.{table_at, entries_lent};
ghost use Rattle.tables.specs.TableJudged.{EntriesStand, entry_coded};

use crate::{Entries, entry_at, members_at};
use shapes::Entry;

// A table that was judged: its bytes, and where each of its entries stands in them.
#[derive(Clone, Copy)]
pub struct JudgedTable<'a> {
    pub bytes: &'a [u8],
    pub places: &'a [usize],
    pub ghost stand: { EntriesStand bytes.now (entries_lent (length places.now) places.now) } by { Prim.hlevel (props, entry_coded) },
}

impl<'a> JudgedTable<'a> {
    // How many entries it has.
    pub fn count(&self) -> usize
        ensures { (result ≡ length (table_at self.now.bytes.now)) × (result ≤ most_entries) }
    {
        self.places.len()
    }

    // Entry j.
    pub fn entry(&self, j: usize) -> Entry
        requires { j < length (table_at self.now.bytes.now) }
        ensures { (entry_of result ≡ get_or (table_at self.now.bytes.now) j no_entry) × WellFormed result.pattern }
    {
        entry_at(self.bytes, self.places[j])
    }

    // The members of entry j.
    pub fn members(&self, j: usize) -> u64
        requires { j < length (table_at self.now.bytes.now) }
        ensures { result ≡ (get_or (table_at self.now.bytes.now) j no_entry).members }
    {
        members_at(self.bytes, self.places[j])
    }
}

impl Entries {
    // The table whose entries they are.
    pub fn beside<'a>(&'a self, t: &'a [u8]) -> JudgedTable<'a>
        requires { EntriesStand t.now self.now }
        ensures { result.bytes.now ≡ t.now }
    {
        JudgedTable {
            bytes: t,
            places: &self.places[..self.count],
        }
    }
}
