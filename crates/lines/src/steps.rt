// All bytes of a line, in one pass: its steps with a sheet's labels, or the place of its first fault.
ghost use Rattle.std.specs.Prelude.{◌≡◌};
ghost use Rattle.base.specs.Choice.{pick};
ghost use Rattle.meaning.specs.Lines.{read_any};
ghost use Rattle.labels.specs.LabelPlaces.{labels_in};
ghost use Rattle.lines.specs.Found.{off_line, sound_line, FoundIs};
ghost use Rattle.lines.specs.Ends.{may_end_at};

use meaning::{MOST_STEPS, Step};
use shapes::{Pattern, no_steps};
use turns::course::Course;
use turns::names::name_at;
use turns::{Mode, Turn, turn_at};

// As many brackets as can be open before a seventeenth step is found.
const MOST_OPEN: usize = MOST_STEPS + 1;

// What a sound line gives: whether every label is known, and its steps, which are whole where 16 or fewer are counted.
#[derive(Clone, Copy)]
pub struct Found {
    pub known: bool,
    pub pattern: Pattern,
}

// A line may end after its dot, and after a name or a bracket where all brackets are closed.
fn may_end(c: Course) -> bool
    ensures { result ≡ may_end_at c.mode c.depth }
{
    match c.mode {
        Mode::Dot => true,
        Mode::Ended => c.depth == 0,
        _ => false,
    }
}

// What the line gives where its bytes end.
fn at_end(c: Course, steps: [Step; MOST_STEPS]) -> Result<Found, usize>
    ensures { result ≡ pick (may_end_at c.mode c.depth) (sound_line c steps) (off_line c.at) }
{
    if !may_end(c) {
        return Err(c.at);
    }
    Ok(Found {
        known: c.known,
        pattern: Pattern {
            count: c.count,
            steps,
        },
    })
}

// The steps of a line, or the place of its first fault.
pub fn steps_of(s: &[u8], line: &[u8]) -> Result<Found, usize>
    ensures { FoundIs (labels_in s.now) (read_any line.now) result }
{
    let mut steps = no_steps().steps;
    let mut opens: [u8; MOST_OPEN] = [0; MOST_OPEN];
    let mut c = Course::first();
    while c.at < line.len() {
        let at = c.at;
        let mode = c.mode;
        match turn_at(mode, line[at]) {
            Turn::Stuck => return Err(at),
            Turn::Moves(m) => {
                c = c.moved(m);
            }
            Turn::Opens => {
                c = c.opened(&mut opens);
            }
            Turn::Closes => {
                if c.depth == 0 {
                    return Err(at);
                }
                c = c.closed(&opens);
            }
            Turn::Names(axis) => {
                let n = name_at(s, line, at);
                let x = c.step_found(axis, n);
                let k = c.count;
                c = c.named(n);
                if k < MOST_STEPS {
                    steps[k] = x;
                }
            }
        }
    }
    at_end(c, steps)
}
