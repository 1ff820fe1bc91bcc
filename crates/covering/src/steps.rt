// Where a step of one pattern may lie on another's, by itself: its child steps aside.
ghost use Rattle.std.specs.Prelude.{◌≡◌, not, eqb};
ghost use Rattle.meaning.specs.Forest.{axis_of};
ghost use Rattle.meaning.specs.Satisfying.{any_or_same};
ghost use Rattle.meaning.specs.Covering.{starred_leaf, may_lie};
ghost use Rattle.covering.specs.Questions.{may_lie_below};

use meaning::Step;

// The label is any, or the same.
pub fn any_or_same(l: u8, m: u8) -> bool
    ensures { result ≡ any_or_same l m }
{
    l == 0 || l == m
}

// Step s, numbered k, is labelled any and has no child steps: the next step hangs on another.
pub fn starred_leaf(s: Step, k: usize, next: usize) -> bool
    ensures { result ≡ starred_leaf s.label (not (eqb next k)) }
{
    s.label == 0 && next != k
}

// Step s, a starred leaf or not, may lie on step t: a near step on a far one only if it is a starred leaf; a step
// labelled any on any, another only on the same label.
fn may_lie(s: Step, starred: bool, t: Step) -> bool
    ensures { result ≡ may_lie (axis_of s.axis) s.label starred (axis_of t.axis) t.label }
{
    let fits = any_or_same(s.label, t.label);
    if s.axis == 0 && t.axis != 0 {
        return starred && fits;
    }
    fits
}

// Step s, a starred leaf or not, may lie on step t, which is below step w: a near step only on a child of w.
pub fn may_lie_below(s: Step, starred: bool, w: usize, t: Step) -> bool
    ensures { result ≡ may_lie_below s starred w t }
{
    if s.axis == 0 && usize::from(t.parent) != w {
        return false;
    }
    may_lie(s, starred, t)
}
