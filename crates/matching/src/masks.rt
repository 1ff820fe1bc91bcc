// A pattern as masks: words of 16 bits in which bit k - 1 is step k.
ghost use Rattle.std.specs.Prelude.{◌≡◌};
ghost use Rattle.shapes.specs.Shapes.{steps_in, WellFormed};
ghost use Rattle.matching.specs.Masks.{MasksOf, cares_for};

use meaning::MOST_STEPS;
use shapes::Pattern;

// The child steps of each step, and of the root as number 0. At place k, for step k + 1: its label, which bits of a
// node's label matter to it, and its own bit; all are 0 where there is no such step. And the far steps.
#[derive(Clone, Copy)]
pub struct Masks {
    pub children: [u16; MOST_STEPS + 1],
    pub labels: [u16; MOST_STEPS],
    pub cares: [u16; MOST_STEPS],
    pub own: [u16; MOST_STEPS],
    pub far: u16,
}

// The bits of a node's label that matter to a step with this one: all, but none where it is any.
#[tactic(auto, unfolding(crate::specs::Masks::cares_for, base::specs::Choice::pick))]
fn cares_for(label: u8) -> u16
    ensures { result ≡ cares_for label }
{
    if label == 0 { 0 } else { 255 }
}

// The masks of a pattern.
pub fn masks_of(p: Pattern) -> Masks
    requires { WellFormed p }
    ensures { MasksOf (steps_in p) result }
{
    let mut m = Masks {
        children: [0; MOST_STEPS + 1],
        labels: [0; MOST_STEPS],
        cares: [0; MOST_STEPS],
        own: [0; MOST_STEPS],
        far: 0,
    };
    let mut far: u16 = 0; // apart, or it would be stored and loaded again for each step
    for (k, s) in p.steps().iter().enumerate() {
        let bit: u16 = 1 << k;
        m.children[usize::from(s.parent)] |= bit;
        m.labels[k] = u16::from(s.label);
        m.cares[k] = cares_for(s.label);
        m.own[k] = bit;
        far |= u16::from(s.axis != 0) << k;
    }
    m.far = far;
    m
}
