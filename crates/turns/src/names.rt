// A name in a line: where it ends, and its number among the labels of a sheet.
ghost use Rattle.std.specs.Prelude.{◌≡◌, ◌+◌, ◌≤◌, ◌<◌, length, drop};
ghost use Rattle.labels.specs.LabelPlaces.{labels_in};
ghost use Rattle.turns.specs.Names.{label_long, name_at};

use labels::number_of;
use labels::written::barred;

// Where a name ends; its number, 0 for any and for a label that is unknown; whether it is known.
#[derive(Clone, Copy)]
pub struct Name {
    pub end: usize,
    pub label: u8,
    pub known: bool,
}

// Where a label ends whose first byte stands just before this place.
fn label_end(line: &[u8], from: usize) -> usize
    requires { from ≤ length line.now }
    ensures { (result ≡ from + label_long (drop from line.now)) × (result ≤ length line.now) }
{
    for i in from..line.len() {
        if barred(line[i]) {
            return i;
        }
    }
    line.len()
}

// The name that begins here: * or a label.
pub fn name_at(s: &[u8], line: &[u8], at: usize) -> Name
    requires { at < length line.now }
    ensures { (result ≡ name_at (labels_in s.now) line.now at) × (result.end ≤ length line.now) }
{
    if line[at] == b'*' {
        return Name {
            end: at + 1,
            label: 0,
            known: true,
        };
    }
    let end = label_end(line, at + 1);
    let label = number_of(&line[at..end], s);
    Name {
        end,
        label,
        known: label != 0,
    }
}
