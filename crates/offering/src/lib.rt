// What is kept at a pair of steps while the merge of two patterns is built, and one candidate offered to it.
#![tactic(auto)]

ghost use Rattle.std.specs.Prelude.{suc, ◌+◌, ◌-◌, ◌≤◌, ◌<◌, ◌≡◌, [], ◌∷◌, ◌++◌, length};
ghost use Rattle.meaning.specs.Numbers.{most_steps};
ghost use Rattle.meaning.specs.Forest.{axis_of, none, step, steps_from};
ghost use Rattle.meaning.specs.Covering.{step_at};
ghost use Rattle.meaning.specs.Merging.{offer, meet};
ghost use Rattle.shapes.specs.Shapes.{pattern_of, steps_in, WellFormed};
ghost use Rattle.shapes.specs.Holding.{Holds, StandsFor};
ghost use Rattle.laws.specs.Children.{children_of};
ghost use Rattle.offering.specs.Copying.{moved_step};
ghost use Rattle.offering.specs.Branches.{staying_forest, first_branch};
ghost use Rattle.offering.specs.Offers.{building_of, Built, IsBranch, body_in, IsBody};

use covering::covers;
use meaning::{MOST_STEPS, Step};
use shapes::{Pattern, no_steps};

// A merge: the pattern, and whether a candidate was left out. So too what is being built at a pair, with its kept candidates
// joined, and a body, whose one root step is near.
#[derive(Clone, Copy)]
pub struct Marked {
    pub pattern: Pattern,
    pub clipped: bool,
}

// The pattern of one step.
fn one(axis: u8, label: u8) -> Pattern
    ensures { Holds result (record { parent = 0; axis = axis; label = label } ∷ []) }
{
    Pattern {
        count: 1,
        steps: [Step {
            parent: 0,
            axis,
            label,
        }; MOST_STEPS],
    }
}

// Step s of the block below v, as it stands after n steps: a child of v hangs on `top`.
fn moved(s: Step, v: usize, n: usize, top: u8) -> Step
    requires { (v ≤ s.parent) × (s.parent - v + n < 256) }
    ensures { result ≡ moved_step v n top s }
{
    let was = usize::from(s.parent);
    let parent = if was == v { top } else { (was - v + n) as u8 };
    Step { parent, ..s }
}

// The steps below step v of p, put after the steps of r, the children of v hanging on `top`.
fn copied(r: Pattern, p: Pattern, v: usize, top: u8) -> Pattern
    requires { WellFormed p × (length r.steps ≡ most_steps) × (v ≤ p.count) × (r.count + (p.count - v) ≤ most_steps) }
    ensures { Holds result (steps_in r ++ steps_from top (suc r.count) (children_of (steps_in p) v)) }
{
    let n = r.count;
    let mut t = r;
    for s in &p.steps()[v..] {
        if usize::from(s.parent) < v {
            return t;
        }
        t.steps[t.count] = moved(*s, v, n, top);
        t.count += 1;
    }
    t
}

// Step v of p with all that is below it, as a pattern of its own.
pub fn branch(p: Pattern, v: usize, axis: u8) -> Pattern
    requires { WellFormed p × (1 ≤ v) × (v ≤ p.count) × (axis ≤ 1) }
    ensures { StandsFor result (step (axis_of axis) (step_at (steps_in p) v).label (children_of (steps_in p) v) none) }
{
    let s = p.steps[v - 1];
    copied(one(axis, s.label), p, v, 1)
}

// The root branches that can't be laid on c.
fn stays(kept: Pattern, c: Pattern) -> Pattern
    requires { WellFormed kept × WellFormed c }
    ensures { StandsFor result (staying_forest (pattern_of c) (pattern_of kept)) }
{
    let mut r = no_steps();
    let mut k = 0;
    while k < kept.count {
        let s = kept.steps[k];
        let b = branch(kept, k + 1, s.axis);
        k += b.count;
        if !covers(b, c) {
            r = copied(r, b, 0, 0);
        }
    }
    r
}

// One candidate: skipped if it can be laid on a kept one; otherwise put last, without the kept ones that can be laid on it,
// or left out where there is no room even so.
fn offer(b: Marked, c: Pattern, own: usize) -> Marked
    requires { WellFormed b.pattern × (own + b.pattern.count ≤ most_steps) × IsBranch c }
    ensures { Built own result (offer most_steps own (first_branch (pattern_of c)) (building_of b)) }
{
    let kept = b.pattern;
    if covers(c, kept) {
        return b;
    }
    let stay = stays(kept, c);
    if own + stay.count + c.count <= MOST_STEPS {
        Marked {
            pattern: copied(stay, c, 0, 0),
            clipped: b.clipped,
        }
    } else {
        Marked {
            pattern: kept,
            clipped: true,
        }
    }
}

// The candidate of a pair, by its body, is offered.
pub fn meet(b: Marked, body: Marked, both: bool, own: usize) -> Marked
    requires { WellFormed b.pattern × (own + b.pattern.count ≤ most_steps) × IsBody body (body_in body) }
    ensures { Built own result (meet most_steps own both (body_in body) (building_of b)) }
{
    // Near is 0, far 1.
    let axis = if both { 0 } else { 1 };
    let c = branch(body.pattern, 1, axis);
    let clipped = b.clipped || body.clipped;
    offer(Marked { clipped, ..b }, c, own)
}

// The body with a label and the children that were built.
pub fn made(label: u8, built: Marked) -> Marked
    requires { WellFormed built.pattern × (1 + built.pattern.count ≤ most_steps) }
    ensures { IsBody result (record { label = label; kids = pattern_of built.pattern; clipped = built.clipped }) }
{
    Marked {
        pattern: copied(one(0, label), built.pattern, 0, 1),
        clipped: built.clipped,
    }
}
