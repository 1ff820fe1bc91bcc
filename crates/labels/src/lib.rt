// A section of labels: the bytes of each, whether it has occurred before, and the judging of all.
#![tactic(auto)]

pub mod written; // written.rt: which labels can stand in a line

ghost use Rattle.std.specs.Prelude.{◌≡◌, ◌+◌, ◌≤◌, ◌<◌};
ghost use Rattle.base.specs.Lists.{some};
ghost use Rattle.base.specs.Standing.{place_after};
ghost use Rattle.meaning.specs.Sections.{same_label};
ghost use Rattle.meaning.specs.LabelBytes.{label_at};
ghost use Rattle.meaning.specs.LineCalls.{number_from};
ghost use Rattle.labels.specs.LabelPlaces.{text_at, after_label, texts_at, labels_in};
ghost use Rattle.labels.specs.LabelSection.{label_place, labels_place};

use meaning::{LONGEST_LABEL, Refusal};
use places::byte_at;

// The bytes of the label whose length byte stands at p.
pub fn text_at(s: &[u8], p: usize) -> &[u8]
    ensures { result.now ≡ text_at s.now p }
{
    if s.len() <= p {
        return &s[..0];
    }
    let from = p + 1;
    let long = byte_at(s, p);
    if s.len() - from < long {
        return &s[from..];
    }
    let to = from + long;
    &s[from..to]
}

// The place after that label.
fn after_label(s: &[u8], p: usize) -> usize
    ensures { (result ≡ after_label s.now p) × (result ≤ p + 256) }
{
    if p < s.len() {
        return p + 1 + byte_at(s, p);
    }
    p
}

// Labels are equal only if every byte is. Many begin alike, so eight bytes are compared at once before all are. It is the
// test of loops, and is put into them.
#[inline(always)]
fn same_label(a: &[u8], b: &[u8]) -> bool
    ensures { result ≡ same_label a.now b.now }
{
    a.len() == b.len() && a.first_chunk::<8>() == b.first_chunk::<8>() && a == b
}

// The text is one of the n labels from the place p on.
fn occurs(text: &[u8], s: &[u8], p: usize, n: usize) -> bool
    ensures { result ≡ some (same_label text.now) (texts_at s.now p n) }
{
    let mut x = p;
    for _ in 0..n {
        if same_label(text, text_at(s, x)) {
            return true;
        }
        x = after_label(s, x);
    }
    false
}

// The number of a text among the labels of the sheet s, 0 where it is none of them.
pub fn number_of(text: &[u8], s: &[u8]) -> u8
    ensures { result ≡ number_from 1 (labels_in s.now) text.now }
{
    let n = byte_at(s, 0);
    let mut x = 1;
    for i in 0..n {
        if same_label(text, text_at(s, x)) {
            return (i + 1) as u8;
        }
        x = after_label(s, x);
    }
    0
}

// A label at x, the i-th from the place p on in d, beside the first k labels of the sheet s.
fn label(s: &[u8], k: usize, d: &[u8], p: usize, i: usize, x: usize) -> Result<usize, Refusal>
    ensures { result ≡ label_place s.now k d.now p i x }
{
    if d.len() <= x {
        return Err(Refusal::EndsEarly);
    }
    let long = byte_at(d, x);
    if long < 1 || LONGEST_LABEL < long {
        return Err(Refusal::LabelLength);
    }
    if d.len() - (x + 1) < long {
        return Err(Refusal::EndsEarly);
    }
    let text = text_at(d, x);
    if occurs(text, s, 1, k) || occurs(text, d, p, i) {
        return Err(Refusal::LabelTwice);
    }
    Ok(x + 1 + long)
}

// The n labels from the place p on in d, beside the first k labels of the sheet s.
pub fn labels(s: &[u8], k: usize, d: &[u8], p: usize, n: usize) -> Result<usize, Refusal>
    ensures { result ≡ labels_place s.now k d.now p n }
{
    let mut x = p;
    for i in 0..n {
        x = label(s, k, d, p, i, x)?;
    }
    Ok(x)
}

// The place after n labels from the place p on.
pub fn after_labels(s: &[u8], p: usize, n: usize) -> usize
    requires { (p < 256) × (n < 256) }
    ensures { (result ≡ place_after (after_label s.now) p n) × (result < 65792) }
{
    let mut x = p;
    for _ in 0..n {
        x = after_label(s, x);
    }
    x
}

// The bytes of label n of the sheet s; 0 is no label, nor is a number after the last, and they have none.
pub fn label_at(s: &[u8], n: usize) -> &[u8]
    ensures { result.now ≡ label_at (labels_in s.now) n }
{
    if n == 0 || byte_at(s, 0) < n {
        return &s[..0];
    }
    text_at(s, after_labels(s, 1, n - 1))
}
