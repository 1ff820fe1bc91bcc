// What one byte of a line does, by what has just been read.
#![tactic(auto)]

pub mod names; // names.rt: a name, from its first byte to its end
pub mod course; // course.rt: how far a line has been read

ghost use Rattle.std.specs.Prelude.{◌≡◌};
ghost use Rattle.turns.specs.Turns.{name_turn, slash_turn, branch_turn, second_turn, opened_turn, turn_at};

use labels::written::barred;

// What has just been read: nothing; the dot of a line without steps; a slash; two slashes; [ and [. and [./; a name or a ].
#[derive(Clone, Copy)]
pub enum Mode {
    Start,
    Dot,
    Slash,
    Slashes,
    Opened,
    OpenedDot,
    OpenedDotSlash,
    Ended,
}

// What the byte does: no line goes on so; it leads on; a bracket opens or closes; a name begins, with its axis.
#[derive(Clone, Copy)]
pub enum Turn {
    Stuck,
    Moves(Mode),
    Opens,
    Closes,
    Names(u8),
}

// A name begins: * or a label.
#[tactic(auto, unfolding(base::specs::Choice::pick, crate::specs::Turns::name_turn))]
fn name_turn(b: u8, axis: u8) -> Turn
    ensures { result ≡ name_turn b axis }
{
    match b {
        b'*' => Turn::Names(axis),
        _ if barred(b) => Turn::Stuck,
        _ => Turn::Names(axis),
    }
}

// A slash leads on, and nothing else does.
#[tactic(auto, unfolding(base::specs::Choice::pick, crate::specs::Turns::slash_turn))]
fn slash_turn(b: u8, mode: Mode) -> Turn
    ensures { result ≡ slash_turn b mode }
{
    match b {
        b'/' => Turn::Moves(mode),
        _ => Turn::Stuck,
    }
}

// A branch begins, in brackets or without; or it is this other byte, which does its own turn.
#[tactic(auto, unfolding(base::specs::Choice::pick, crate::specs::Turns::branch_turn))]
fn branch_turn(b: u8, other: u8, turn: Turn) -> Turn
    ensures { result ≡ branch_turn b other turn }
{
    match b {
        b'/' => Turn::Moves(Mode::Slash),
        b'[' => Turn::Opens,
        _ if b == other => turn,
        _ => Turn::Stuck,
    }
}

// After a slash: a second one, or a name.
#[tactic(auto, unfolding(base::specs::Choice::pick, crate::specs::Turns::second_turn))]
fn second_turn(b: u8) -> Turn
    ensures { result ≡ second_turn b }
{
    match b {
        b'/' => Turn::Moves(Mode::Slashes),
        _ => name_turn(b, 0),
    }
}

// After an opening bracket: an axis, a short form.
#[tactic(auto, unfolding(base::specs::Choice::pick, crate::specs::Turns::opened_turn))]
fn opened_turn(b: u8) -> Turn
    ensures { result ≡ opened_turn b }
{
    match b {
        b'/' => Turn::Moves(Mode::Slash),
        b'.' => Turn::Moves(Mode::OpenedDot),
        _ => name_turn(b, 0),
    }
}

#[tactic(auto, unfolding(crate::specs::Turns::turn_at))]
pub fn turn_at(mode: Mode, b: u8) -> Turn
    ensures { result ≡ turn_at mode b }
{
    match mode {
        Mode::Start => branch_turn(b, b'.', Turn::Moves(Mode::Dot)),
        Mode::Dot => Turn::Stuck,
        Mode::Slash => second_turn(b),
        Mode::Slashes => name_turn(b, 1),
        Mode::Opened => opened_turn(b),
        Mode::OpenedDot => slash_turn(b, Mode::OpenedDotSlash),
        Mode::OpenedDotSlash => slash_turn(b, Mode::Slashes),
        Mode::Ended => branch_turn(b, b']', Turn::Closes),
    }
}
