// A pattern's text: / near, // far, * any; one child follows at once, several stand in brackets; a dot without steps.
ghost use Rattle.std.specs.Prelude.{◌≡◌};
ghost use Rattle.meaning.specs.Forest.{axis_of};
ghost use Rattle.meaning.specs.PatternText.{axis_text, label_text, several, pattern_text};
ghost use Rattle.laws.specs.Children.{children_of};
ghost use Rattle.shapes.specs.Shapes.{steps_in, pattern_of, WellFormed};
ghost use Rattle.texts.specs.Puts.{Puts};
ghost use Rattle.labels.specs.LabelPlaces.{labels_in};
ghost use Rattle.texts.specs.BranchTexts.{below_text, step_text};

use crate::Text;
use labels::label_at;
use meaning::Step;
use shapes::Pattern;

// Several branches below step v of a pattern, or below its root, which is 0.
fn several_below(p: &Pattern, v: usize) -> bool
    requires { WellFormed p.now }
    ensures { result ≡ several (children_of (steps_in p.now) v) }
{
    let mut n: usize = 0;
    for k in v..p.count {
        if usize::from(p.steps[k].parent) == v {
            n += 1;
        }
    }
    n > 1
}

impl Text<'_> {
    // An axis: / near, // far.
    fn put_axis(&mut self, axis: u8)
        ensures { Puts self.old self.new (axis_text (axis_of axis)) }
    {
        if axis == 0 {
            self.put_bytes(b"/");
        } else {
            self.put_bytes(b"//");
        }
    }

    // A label of the sheet s as its bytes, * for any.
    fn put_label(&mut self, s: &[u8], l: usize)
        ensures { Puts self.old self.new (label_text (labels_in s.now) l) }
    {
        if l == 0 {
            self.put_bytes(b"*");
        } else {
            self.put_bytes(label_at(s, l));
        }
    }

    // A step's axis and label.
    fn put_step(&mut self, s: &[u8], x: Step)
        ensures { Puts self.old self.new (step_text (labels_in s.now) x) }
    {
        self.put_axis(x.axis);
        self.put_label(s, usize::from(x.label));
    }

    // The branches below step v of a pattern, or below its root, which is 0: several stand in brackets.
    fn put_below(&mut self, s: &[u8], p: &Pattern, v: usize)
        requires { WellFormed p.now }
        ensures { Puts self.old self.new (below_text (labels_in s.now) (children_of (steps_in p.now) v)) }
    {
        let many = several_below(p, v);
        for k in v..p.count {
            let x = p.steps[k];
            if usize::from(x.parent) == v {
                self.put_if(many, b'[');
                self.put_step(s, x);
                self.put_below(s, p, k + 1);
                self.put_if(many, b']');
            }
        }
    }

    // A pattern, a dot where it has no steps.
    pub fn put_pattern(&mut self, s: &[u8], p: &Pattern)
        requires { WellFormed p.now }
        ensures { Puts self.old self.new (pattern_text (labels_in s.now) (pattern_of p.now)) }
    {
        if p.count == 0 {
            self.put_bytes(b".");
        } else {
            self.put_below(s, p, 0);
        }
    }
}
