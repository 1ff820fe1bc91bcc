// The steps of a pattern: where a step may hang, whether a near step stands at the root, and the judging of all.
ghost use Rattle.std.specs.Prelude.{◌≡◌, ◌+◌, ◌*◌, ◌^◌, ◌≤◌, ◌<◌, length};
ghost use Rattle.base.specs.Lists.{some};
ghost use Rattle.base.specs.Loops.{run};
ghost use Rattle.meaning.specs.Numbers.{most_steps};
ghost use Rattle.meaning.specs.Sections.{is_near_root};
ghost use Rattle.reading.specs.SheetPlaces.{step_at_place, steps_at};
ghost use Rattle.reading.specs.StepSection.{climbs, is_second_near, step_label, step_place};

use meaning::Refusal;
use places::byte_at;

// Step q, or the root, is met going up from step c at most n times, where the steps stand from the place p on.
fn climbs_to(s: &[u8], p: usize, q: usize, n: usize, c: usize) -> bool
    requires { (p ≤ length s.now) × (c < 256) }
    ensures { result ≡ climbs s.now p q n c }
{
    let mut at = c;
    for _ in 0..n {
        if at == q {
            return true;
        }
        if at == 0 {
            return false;
        }
        at = byte_at(s, p + 3 * (at - 1));
    }
    false
}

// The step at x is near and has parent 0.
fn near_root_at(s: &[u8], x: usize) -> bool
    requires { x < 2 ^ 63 + 100 }
    ensures { result ≡ is_near_root (step_at_place s.now x) }
{
    byte_at(s, x) == 0 && byte_at(s, x + 1) == 0
}

// One of the k steps from the place p on is near and has parent 0.
fn near_at_root(s: &[u8], p: usize, k: usize) -> bool
    requires { (p ≤ length s.now) × (k ≤ most_steps) }
    ensures { result ≡ some is_near_root (steps_at s.now p k) }
{
    for i in 0..k {
        if near_root_at(s, p + 3 * i) {
            return true;
        }
    }
    false
}

// A step with this parent and axis would be a second near step with parent 0.
fn second_near(s: &[u8], p: usize, k: usize, parent: usize, axis: usize) -> bool
    requires { (p ≤ length s.now) × (k ≤ most_steps) }
    ensures { result ≡ is_second_near s.now p k parent axis }
{
    parent == 0 && axis == 0 && near_at_root(s, p, k)
}

// The last byte of a step, its label.
fn step_label(s: &[u8], known: usize, x: usize) -> Result<usize, Refusal>
    ensures { result ≡ step_label s.now known x }
{
    if s.len() <= x {
        return Err(Refusal::EndsEarly);
    }
    if known < byte_at(s, x) {
        return Err(Refusal::LabelOutside);
    }
    Ok(x + 1)
}

// A step at x, after the k steps from the place p on, with so many labels.
fn step(s: &[u8], known: usize, p: usize, k: usize, x: usize) -> Result<usize, Refusal>
    requires { (p ≤ length s.now) × (k ≤ most_steps) }
    ensures { result ≡ step_place s.now known p k x }
{
    if s.len() <= x {
        return Err(Refusal::EndsEarly);
    }
    let parent = byte_at(s, x);
    if !climbs_to(s, p, parent, k + 1, k) {
        return Err(Refusal::ParentRule);
    }
    if s.len() <= x + 1 {
        return Err(Refusal::EndsEarly);
    }
    let axis = byte_at(s, x + 1);
    if 1 < axis {
        return Err(Refusal::AxisUnknown);
    }
    if second_near(s, p, k, parent, axis) {
        return Err(Refusal::SecondNear);
    }
    step_label(s, known, x + 2)
}

// The n steps from the place p on, with so many labels.
pub fn steps(s: &[u8], known: usize, p: usize, n: usize) -> Result<usize, Refusal>
    requires { (p ≤ length s.now) × (n ≤ most_steps) }
    ensures { result ≡ run (step_place s.now known p) n 0 p }
{
    let mut x = p;
    for k in 0..n {
        x = step(s, known, p, k, x)?;
    }
    Ok(x)
}
