// The steps of a line, written as a pattern.
ghost use Rattle.std.specs.Prelude.{◌≤◌, ◌≡◌, length};
ghost use Rattle.base.specs.Lists.{keep};
ghost use Rattle.meaning.specs.Numbers.{most_steps};
ghost use Rattle.meaning.specs.Sections.{is_near_root};
ghost use Rattle.meaning.specs.LineCalls.{output_answer};
ghost use Rattle.shapes.specs.Shapes.{steps_in, WellFormed};
ghost use Rattle.writing.specs.Gives.{Gives};
ghost use Rattle.lines.specs.Said.{pattern_said};

use crate::steps::Found;
use meaning::{MOST_STEPS, Refusal, Step};
use shapes::Pattern;
use writing::write_pattern;

// A near step with parent 0.
fn near_root(x: Step) -> bool
    ensures { result ≡ is_near_root x }
{
    x.parent == 0 && x.axis == 0
}

// How many near steps with parent 0 a pattern has.
fn near_roots(p: Pattern) -> usize
    requires { WellFormed p }
    ensures { result ≡ length (keep is_near_root (steps_in p)) }
{
    p.steps().iter().filter(|x| near_root(**x)).count()
}

// Writes the steps of a line: first all labels are judged, then the number of steps, the near steps with parent 0, and room.
pub fn write_drawn(f: Found, out: &mut [u8]) -> Result<usize, Refusal>
    requires { f.pattern.count ≤ most_steps → WellFormed f.pattern }
    ensures { Gives output_answer out.old (pattern_said f.known f.pattern) result out.new }
{
    let Found { known, pattern: p } = f;
    if !known {
        return Err(Refusal::LabelUnknown);
    }
    if MOST_STEPS < p.count {
        return Err(Refusal::CountOutside);
    }
    if 1 < near_roots(p) {
        return Err(Refusal::SecondNear);
    }
    write_pattern(out, p)
}
