// A table's text: first the totals, then a line for each entry: members ascending, pattern, labels as their bytes.
#![tactic(auto)]

pub mod printed; // printed.rt: what is printed for a limit and a sheet

ghost use Rattle.std.specs.Prelude.{◌≤◌, ◌≡◌};
ghost use Rattle.meaning.specs.Numbers.{most_patterns};
ghost use Rattle.meaning.specs.Routing.{members_of};
ghost use Rattle.meaning.specs.Printing.{comma_text, entry_text};
ghost use Rattle.shapes.specs.Shapes.{entry_of, WellFormed};
ghost use Rattle.texts.specs.PutText.{written, put};
ghost use Rattle.texts.specs.Puts.{Puts};
ghost use Rattle.labels.specs.LabelPlaces.{labels_in};
ghost use Rattle.printing.specs.TableTexts.{totals_of, built_table, text_of};

use members::is_member;
use shapes::{Entry, Table};
use texts::Text;

// The members of an entry, of n subscriptions, ascending, with a comma between them.
fn put_members(text: &mut Text, members: u64, n: usize)
    requires { n ≤ most_patterns }
    ensures { Puts text.old text.new (comma_text (members_of n members)) }
{
    let mut started = false;
    for k in 0..n {
        if is_member(members, k) {
            text.put_if(started, b',');
            text.put_decimal(k);
            started = true;
        }
    }
}

// The totals.
fn put_totals(text: &mut Text, subscriptions: usize, entries: usize, steps: usize, rounds: usize)
    ensures { Puts text.old text.new (totals_of subscriptions entries steps rounds) }
{
    text.put_counted(subscriptions, b" subscriptions, ");
    text.put_counted(entries, b" entries, ");
    text.put_counted(steps, b" steps, ");
    text.put_counted(rounds, b" rounds\n");
}

// A line for an entry, beside a sheet s of so many subscriptions.
fn put_entry(text: &mut Text, s: &[u8], e: &Entry, subscriptions: usize)
    requires { WellFormed e.now.pattern × (subscriptions ≤ most_patterns) }
    ensures { Puts text.old text.new (entry_text (labels_in s.now) subscriptions (entry_of e.now)) }
{
    put_members(text, e.members, subscriptions);
    text.put_bytes(b": ");
    text.put_pattern(s, &e.pattern);
    text.put_bytes(b"\n");
}

// A table: the totals, and a line for each entry; the next place.
pub fn put_table(out: &mut [u8], s: &[u8], t: Table, subscriptions: usize, rounds: usize) -> usize
    requires { subscriptions ≤ most_patterns }
    ensures { written out.new result
        ≡ put (written out.old 0) (text_of (labels_in s.now) subscriptions (built_table t rounds)) }
{
    let mut text = Text::new(out);
    put_totals(
        &mut text,
        subscriptions,
        t.count,
        t.steps_together(),
        rounds,
    );
    for e in t.entries() {
        put_entry(&mut text, s, e, subscriptions);
    }
    text.at
}
