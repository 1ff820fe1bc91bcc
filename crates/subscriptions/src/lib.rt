// Patterns by value out of a sheet or a table, and where the subscriptions of a sheet stand.
#![tactic(auto)]

pub mod judged; // judged.rt: a sheet that was judged, lent with the places of its subscriptions

ghost use Rattle.std.specs.Prelude.{◌≡◌, ◌+◌, ◌*◌, ◌^◌, ◌≤◌, ◌<◌, length};
ghost use Rattle.meaning.specs.Numbers.{most_steps};
ghost use Rattle.reading.specs.SheetPlaces.{step_at_place, after_pattern, sheet_at};
ghost use Rattle.subscriptions.specs.Taken.{steps_filled, pattern_at, places_from, subscriptions_of};

use labels::after_labels;
use meaning::{MOST_PATTERNS, MOST_STEPS, Step};
use places::{byte_at, within};
use shapes::{Pattern, no_steps};

// How many subscriptions a sheet has, and the place of each; behind those, the places go on in the same way.
#[derive(Clone, Copy)]
pub struct Subscriptions {
    pub count: usize,
    pub places: [usize; MOST_PATTERNS],
}

// The step at x.
fn step_at(s: &[u8], x: usize) -> Step
    requires { x + 2 < length s.now }
    ensures { result ≡ step_at_place s.now x }
{
    Step {
        parent: s[x],
        axis: s[x + 1],
        label: s[x + 2],
    }
}

// The n steps from the place p on, and empty ones behind them.
fn steps_at(s: &[u8], p: usize, n: usize) -> [Step; MOST_STEPS]
    requires { (n ≤ most_steps) × (p + 3 * n ≤ length s.now) }
    ensures { result ≡ steps_filled s.now p n }
{
    let mut steps = [Step {
        parent: 0,
        axis: 0,
        label: 0,
    }; MOST_STEPS];
    for i in 0..n {
        steps[i] = step_at(s, p + 3 * i);
    }
    steps
}

// The pattern at x, without steps where the count is over 16 or bytes are missing.
pub fn pattern_at(s: &[u8], x: usize) -> Pattern
    ensures { result ≡ pattern_at s.now x }
{
    if s.len() <= x {
        return no_steps();
    }
    let n = usize::from(s[x]);
    if MOST_STEPS < n {
        return no_steps();
    }
    if s.len() - (x + 1) < 3 * n {
        return no_steps();
    }
    Pattern {
        count: n,
        steps: steps_at(s, x + 1, n),
    }
}

// The place after the pattern at x.
pub fn after_pattern(s: &[u8], x: usize) -> usize
    requires { x < 2 ^ 63 }
    ensures { (result ≡ after_pattern s.now x) × (result ≤ x + 766) }
{
    x + 1 + 3 * byte_at(s, x)
}

// N places from p on: at each stand so many bytes before a pattern, and the next place is behind the pattern.
pub fn places_from<const N: usize>(s: &[u8], p: usize, before: usize) -> [usize; N]
    requires { (p < 65800) × (before ≤ 8) × (N ≤ 64) }
    ensures { result ≡ places_from s.now before p N }
{
    let mut places = [0; N];
    let mut x = p;
    for place in &mut places {
        *place = x;
        x = after_pattern(s, x + before);
    }
    places
}

// The subscriptions of a sheet.
pub fn subscriptions_in(s: &[u8]) -> Subscriptions
    ensures { result ≡ subscriptions_of s.now }
{
    let x = after_labels(s, 1, byte_at(s, 0));
    let count = within(byte_at(s, x), MOST_PATTERNS);
    let places = places_from(s, x + 1, 0);
    Subscriptions { count, places }
}
