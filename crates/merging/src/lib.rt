// The merge of two patterns by value: one of them, or what is built at the pair of their roots.
#![tactic(auto)]

ghost use Rattle.std.specs.Prelude.{◌+◌, ◌≤◌, ◌≡◌, true};
ghost use Rattle.meaning.specs.Numbers.{most_steps};
ghost use Rattle.meaning.specs.Merging.{nothing, common_label, through, merge};
ghost use Rattle.shapes.specs.Shapes.{pattern_of, steps_in, WellFormed};
ghost use Rattle.laws.specs.Children.{children_of};
ghost use Rattle.covering.specs.PairNotes.{Noted};
ghost use Rattle.offering.specs.Offers.{building_of, Built, IsBody};
ghost use Rattle.merging.specs.PairWalk.{near_child};
ghost use Rattle.merging.specs.Bodies.{body_for, body_at, Known};
ghost use Rattle.merging.specs.Walks.{across_of};
ghost use Rattle.merging.specs.Merges.{IsMerge};

use covering::{Notes, PAIRS, cell, covers_noting, lies_at};
use meaning::Step;
use offering::{Marked, branch, made, meet};
use shapes::{Pattern, no_steps};

// Step s is a near child of w.
fn near_child(s: Step, w: usize) -> bool
    ensures { result ≡ near_child w s }
{
    usize::from(s.parent) == w && s.axis == 0
}

// The body of a step as it is.
fn taken(p: Pattern, v: usize) -> Marked
    requires { WellFormed p × (1 ≤ v) × (v ≤ p.count) }
    ensures { IsBody result (body_at (steps_in p) v) }
{
    Marked {
        pattern: branch(p, v, 0),
        clipped: false,
    }
}

// The common label, or any where they differ.
fn common_label(l: u8, m: u8) -> u8
    ensures { result ≡ common_label l m }
{
    if l == m { l } else { 0 }
}

// Two patterns that are merged: the bodies of their pairs of steps, as far as they were found, and what is noted of p laid
// on q and of q laid on p.
#[derive(Drop)]
struct Merging<'a> {
    p: Pattern,
    q: Pattern,
    bodies: &'a mut [Option<Marked>; PAIRS],
    there: &'a mut Notes,
    back: &'a mut Notes,
}

impl<'a> Merging<'a> {
    // What is built at the pair (v, w): all pairs below go by, v' ascending.
    #[cycle(across_body_at_build_at_new_body)]
    fn build_at(&mut self, v: usize, w: usize, own: usize) -> Marked
        requires { Known self.old.p self.old.q self.old × (v ≤ self.old.p.count) × (w ≤ self.old.q.count) × (own ≤ 1) }
        ensures { Built own result (through most_steps (children_of (steps_in self.old.p) v) true own (children_of (steps_in self.old.q) w) nothing)
            × Known self.old.p self.old.q self.new }
    {
        let mut b = Marked {
            pattern: no_steps(),
            clipped: false,
        };
        for k in v..self.p.count {
            let s = self.p.steps[k];
            if usize::from(s.parent) < v {
                return b;
            }
            b = self.across(k + 1, near_child(s, v), w, own, b);
        }
        b
    }

    // Step v meets all steps below w, ascending.
    #[cycle(across_body_at_build_at_new_body)]
    fn across(&mut self, v: usize, direct: bool, w: usize, own: usize, built: Marked) -> Marked
        requires { Known self.old.p self.old.q self.old × (1 ≤ v) × (v ≤ self.old.p.count) × (w ≤ self.old.q.count)
            × WellFormed built.pattern × (own + built.pattern.count ≤ most_steps) }
        ensures { Built own result (across_of own direct (steps_in self.old.p) v (children_of (steps_in self.old.q) w) (building_of built))
            × Known self.old.p self.old.q self.new }
    {
        let mut b = built;
        for u in w..self.q.count {
            let t = self.q.steps[u];
            if usize::from(t.parent) < w {
                return b;
            }
            let body = self.body_at(v, u + 1);
            b = meet(b, body, direct && near_child(t, w), own);
        }
        b
    }

    // The body of a pair: as it is kept, or found now and kept.
    #[cycle(across_body_at_build_at_new_body)]
    fn body_at(&mut self, v: usize, w: usize) -> Marked
        requires { Known self.old.p self.old.q self.old × (1 ≤ v) × (v ≤ self.old.p.count) × (1 ≤ w) × (w ≤ self.old.q.count) }
        ensures { IsBody result (body_for (steps_in self.old.p) (steps_in self.old.q) v w) × Known self.old.p self.old.q self.new }
    {
        let at = cell(v, w);
        if let Some(kept) = self.bodies[at] {
            return kept;
        }
        let body = self.new_body(v, w);
        self.bodies[at] = Some(body);
        body
    }

    // That of v if it can be laid at w, otherwise that of w if it can be laid at v, otherwise what is built there.
    #[cycle(across_body_at_build_at_new_body)]
    fn new_body(&mut self, v: usize, w: usize) -> Marked
        requires { Known self.old.p self.old.q self.old × (1 ≤ v) × (v ≤ self.old.p.count) × (1 ≤ w) × (w ≤ self.old.q.count) }
        ensures { IsBody result (body_for (steps_in self.old.p) (steps_in self.old.q) v w) × Known self.old.p self.old.q self.new }
    {
        if lies_at(self.p, v, self.q, w, self.there) {
            return taken(self.p, v);
        }
        if lies_at(self.q, w, self.p, v, self.back) {
            return taken(self.q, w);
        }
        let label = common_label(self.p.steps[v - 1].label, self.q.steps[w - 1].label);
        made(label, self.build_at(v, w, 1))
    }
}

// What is built at the roots of p and q, with the notes of both questions. It is never put into its caller's frame: a merge
// that is one of the two clears no bodies.
#[inline(never)]
fn built(p: Pattern, q: Pattern, there: &mut Notes, back: &mut Notes) -> Marked
    requires { WellFormed p × WellFormed q × Noted p q there.old × Noted q p back.old }
    ensures { Built 0 result (through most_steps (children_of (steps_in p) 0) true 0 (children_of (steps_in q) 0) nothing) }
{
    let mut bodies = [None; PAIRS];
    let mut merging = Merging {
        p,
        q,
        bodies: &mut bodies,
        there,
        back,
    };
    merging.build_at(0, 0, 0)
}

// The merge of p with q.
pub fn merge(p: Pattern, q: Pattern) -> Marked
    requires { WellFormed p × WellFormed q }
    ensures { IsMerge result (merge (pattern_of p) (pattern_of q)) }
{
    let mut there = [0; PAIRS];
    if covers_noting(p, q, &mut there) {
        return Marked {
            pattern: p,
            clipped: false,
        };
    }
    let mut back = [0; PAIRS];
    if covers_noting(q, p, &mut back) {
        return Marked {
            pattern: q,
            clipped: false,
        };
    }
    built(p, q, &mut there, &mut back)
}
