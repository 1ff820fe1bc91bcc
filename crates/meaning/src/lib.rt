// What the papers define. The definitions are in specs/, in the order of the paper. Declared here are the refusals with
// their numbers and the limits, as code names them, the step as it is written, and the values of the hub's calls.
#![tactic(auto)]

ghost use Rattle.std.specs.Prelude.{◌≡◌};
ghost use Rattle.meaning.specs.Numbers.{refusal_number, number_given};

// Why a call refuses, with the number that is given back; specs/Numbers.antt says when each is given, and code that gives
// another is not proved. Done is 0.
#[derive(Clone, Copy, Debug, PartialEq, Eq)]
pub enum Refusal {
    EndsEarly = 1,
    BytesRemain,
    LabelLength,
    LabelTwice,
    CountOutside,
    ParentRule,
    AxisUnknown,
    LabelOutside,
    SecondNear,
    NoRoom,
    NotThere,
    NotFair,
    NotALine,
    LabelUnknown,
    NotWritable,
}

impl Refusal {
    pub fn number(self) -> u8
        ensures { result ≡ refusal_number self }
    {
        self as u8
    }
}

// The number of a check: 0 where it passed.
pub fn number_given(checked: Result<(), Refusal>) -> u8
    ensures { result ≡ number_given checked }
{
    match checked {
        Ok(()) => 0,
        Err(why) => why.number(),
    }
}

// The limits.
pub const LONGEST_LABEL: usize = 60;

pub const MOST_LABELS: usize = 255;

pub const MOST_PATTERNS: usize = 64;

pub const MOST_STEPS: usize = 16;

pub const MOST_NODES: usize = 1024;

pub const MOST_ENTRIES: usize = 64;

pub const LONGEST_LINE: usize = 1024;

// A step as it is written: the number of its parent (0: the pattern's root), its axis (0 near, 1 far), its label (0: any).
#[derive(Clone, Copy)]
pub struct Step {
    pub parent: u8,
    pub axis: u8,
    pub label: u8,
}

// A merge that was written: how many bytes, and whether a candidate was left out.
#[derive(Clone, Copy)]
pub struct Merged {
    pub length: usize,
    pub clipped: bool,
}

// A table for a limit that was written: how many bytes, after how many rounds.
#[derive(Clone, Copy)]
pub struct Built {
    pub length: usize,
    pub rounds: usize,
}

// The route by a table: bit i of the set is subscription i; and how many patterns were tried.
#[derive(Clone, Copy)]
pub struct Tabled {
    pub set: u64,
    pub tried: usize,
}

// Why a line is refused, with the place where it is not in the notation, and otherwise 0.
#[derive(Clone, Copy, Debug, PartialEq, Eq)]
pub struct LineRefusal {
    pub why: Refusal,
    pub place: usize,
}

impl From<Refusal> for LineRefusal {
    ghost from_gives = { λ why e. e ≡ record { why = why; place = 0 } };

    fn from(why: Refusal) -> LineRefusal {
        LineRefusal { why, place: 0 }
    }
}
