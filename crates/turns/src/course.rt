// How far a line has been read, and what a bracket and a name do to it.
ghost use Rattle.std.specs.Prelude.{suc, ◌-◌, ◌^◌, ◌≤◌, ◌<◌, ◌≡◌, set};
ghost use Rattle.meaning.specs.Numbers.{most_steps};
ghost use Rattle.turns.specs.Courses.{first_course, moved_course, opened_course, closed_course, counted, named_course};

use crate::Mode;
use crate::names::Name;
use meaning::{MOST_STEPS, Step};
use places::byte_at;

// The place of the next byte, what has just been read, how many brackets are open, the step that a branch would hang on, how many steps were found (at
// most 17 are counted), and whether every label so far is known.
#[derive(Clone, Copy)]
pub struct Course {
    pub at: usize,
    pub mode: Mode,
    pub depth: usize,
    pub here: u8,
    pub count: usize,
    pub known: bool,
}

impl Course {
    // Before the first byte.
    #[tactic(auto, unfolding(crate::specs::Courses::first_course))]
    pub fn first() -> Course
        ensures { result ≡ first_course }
    {
        Course {
            at: 0,
            mode: Mode::Start,
            depth: 0,
            here: 0,
            count: 0,
            known: true,
        }
    }

    // A byte leads on.
    #[tactic(auto, unfolding(crate::specs::Courses::moved_course))]
    pub fn moved(self, mode: Mode) -> Course
        requires { self.at < 2 ^ 64 - 1 }
        ensures { result ≡ moved_course self mode }
    {
        Course {
            at: self.at + 1,
            mode,
            ..self
        }
    }

    // A bracket opens: the step that its branch hangs on is kept.
    #[tactic(auto, unfolding(crate::specs::Courses::opened_course))]
    pub fn opened(self, opens: &mut [u8]) -> Course
        requires { (self.at < 2 ^ 64 - 1) × (self.depth ≤ self.at) }
        ensures { (result ≡ opened_course self) × (opens.new ≡ set opens.old self.depth self.here) }
    {
        keep(opens, self.depth, self.here);
        Course {
            at: self.at + 1,
            mode: Mode::Opened,
            depth: self.depth + 1,
            ..self
        }
    }

    // The innermost bracket closes.
    #[tactic(auto, unfolding(crate::specs::Courses::closed_course))]
    pub fn closed(self, opens: &[u8]) -> Course
        requires { (self.at < 2 ^ 64 - 1) × (0 < self.depth) }
        ensures { result ≡ closed_course self opens.now }
    {
        let depth = self.depth - 1;
        Course {
            at: self.at + 1,
            mode: Mode::Ended,
            depth,
            here: byte_at(opens, depth) as u8,
            ..self
        }
    }

    // The step that is found.
    pub fn step_found(self, axis: u8, n: Name) -> Step
        ensures { result ≡ record { parent = self.here; axis = axis; label = n.label } }
    {
        Step {
            parent: self.here,
            axis,
            label: n.label,
        }
    }

    // A step is found.
    #[tactic(auto, unfolding(crate::specs::Courses::named_course))]
    pub fn named(self, n: Name) -> Course
        requires { self.count ≤ suc most_steps }
        ensures { result ≡ named_course self n }
    {
        let count = one_more(self.count);
        Course {
            at: n.end,
            mode: Mode::Ended,
            here: count as u8,
            count,
            known: self.known && n.known,
            ..self
        }
    }
}

// A byte is kept where there is a place for it.
fn keep(bytes: &mut [u8], at: usize, b: u8)
    ensures { bytes.new ≡ set bytes.old at b }
{
    if at < bytes.len() {
        bytes[at] = b;
    }
}

// One step more; those after the seventeenth are not counted.
#[tactic(auto, unfolding(base::specs::Choice::pick, crate::specs::Courses::counted))]
fn one_more(count: usize) -> usize
    requires { count ≤ suc most_steps }
    ensures { (result ≡ counted count) × (result ≤ suc most_steps) }
{
    if count <= MOST_STEPS {
        return count + 1;
    }
    count
}
