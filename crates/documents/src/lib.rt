// Reading documents beside a sheet: labels and nodes are judged by places in the lent bytes (specs/DocumentSection.antt),
// and what that gives is what a document means.
#![tactic(auto)]

ghost use Rattle.std.specs.Prelude.{◌≡◌, ◌+◌, ◌<◌};
ghost use Rattle.base.specs.Loops.{run};
ghost use Rattle.meaning.specs.Sections.{node_parent};
ghost use Rattle.meaning.specs.Numbers.{number_given};
ghost use Rattle.meaning.specs.Calls.{document_number, label_number, label_part};
ghost use Rattle.shapes.specs.Nodes.{nodes_in};
ghost use Rattle.places.specs.Bytes.{pair_at};
ghost use Rattle.documents.specs.DocumentSection.{node_label, node_place, nodes_place, document_place, document_at, node_count_at};
ghost use Rattle.documents.specs.DocumentJudged.{DocumentStands, sheet_document_place};

use labels::{after_labels, labels, text_at};
use meaning::{MOST_LABELS, MOST_NODES, Refusal};
use places::{byte_at, end, pair_at};
use reading::sheet;
use shapes::nodes::Nodes;

// Node 1 has parent 0, every other a parent from 1 to its own number less 1.
fn node_parent(k: usize, p: usize) -> bool
    ensures { result ≡ node_parent k p }
{
    if k == 1 {
        return p == 0;
    }
    if p < 1 {
        return false;
    }
    p < k
}

// The last byte of a node, its label.
fn node_label(d: &[u8], known: usize, x: usize) -> Result<usize, Refusal>
    ensures { result ≡ node_label d.now known x }
{
    if d.len() <= x {
        return Err(Refusal::EndsEarly);
    }
    let label = byte_at(d, x);
    if label < 1 {
        return Err(Refusal::LabelOutside);
    }
    if known < label {
        return Err(Refusal::LabelOutside);
    }
    Ok(x + 1)
}

// A node at x, after i others, with so many labels.
fn node(d: &[u8], known: usize, i: usize, x: usize) -> Result<usize, Refusal>
    requires { i < 65536 }
    ensures { result ≡ node_place d.now known i x }
{
    if d.len() <= x {
        return Err(Refusal::EndsEarly);
    }
    if d.len() <= x + 1 {
        return Err(Refusal::EndsEarly);
    }
    let parent = pair_at(d, x);
    if node_parent(i + 1, parent) {
        return node_label(d, known, x + 2);
    }
    Err(Refusal::ParentRule)
}

// The n nodes from the place p on, with so many labels.
fn nodes_from(d: &[u8], known: usize, p: usize, n: usize) -> Result<usize, Refusal>
    requires { n < 65536 }
    ensures { result ≡ run (node_place d.now known) n 0 p }
{
    let mut x = p;
    for i in 0..n {
        x = node(d, known, i, x)?;
    }
    Ok(x)
}

// The nodes of a document, from their count on.
fn nodes(d: &[u8], known: usize, x: usize) -> Result<usize, Refusal>
    ensures { result ≡ nodes_place d.now known x }
{
    if d.len() <= x {
        return Err(Refusal::EndsEarly);
    }
    if d.len() <= x + 1 {
        return Err(Refusal::EndsEarly);
    }
    let n = pair_at(d, x);
    if n < 1 {
        return Err(Refusal::CountOutside);
    }
    if MOST_NODES < n {
        return Err(Refusal::CountOutside);
    }
    nodes_from(d, known, x + 2, n)
}

// Where a document ends, beside a sheet that was judged, or its first fault.
pub fn document(s: &[u8], d: &[u8]) -> Result<usize, Refusal>
    ensures { result ≡ document_place s.now d.now }
{
    if d.len() == 0 {
        return Err(Refusal::EndsEarly);
    }
    let k = byte_at(s, 0);
    let n = byte_at(d, 0);
    if MOST_LABELS < k + n {
        return Err(Refusal::CountOutside);
    }
    let x = labels(s, k, d, 1, n)?;
    let y = nodes(d, k + n, x)?;
    end(d, y)
}

// The sheet first, then the document.
pub fn sheet_and_document(s: &[u8], d: &[u8]) -> Result<usize, Refusal>
    ensures { result ≡ sheet_document_place s.now d.now }
{
    sheet(s)?;
    document(s, d)
}

// Is a document beside a sheet sound, and the sheet?
pub fn document_check(s: &[u8], d: &[u8]) -> Result<(), Refusal>
    ensures { number_given result ≡ document_number s.now d.now }
{
    sheet_and_document(s, d)?;
    Ok(())
}

// Where the first node of a document stands.
pub fn node_place(d: &[u8]) -> usize
    ensures { (result ≡ node_count_at d.now + 2) × (result < 65800) }
{
    after_labels(d, 1, byte_at(d, 0)) + 2
}

// How many nodes a document has.
pub fn node_count(d: &[u8]) -> usize
    ensures { (result ≡ pair_at d.now (node_count_at d.now)) × (result < 65536) }
{
    pair_at(d, after_labels(d, 1, byte_at(d, 0)))
}

// The nodes of a document that was judged.
pub fn nodes_of(d: &[u8]) -> Nodes
    requires { DocumentStands d.now }
    ensures { nodes_in result ≡ (document_at d.now).nodes }
{
    Nodes {
        bytes: d,
        at: node_place(d),
        count: node_count(d),
    }
}

// Is there a label with this number?
pub fn label_check(s: &[u8], d: &[u8], n: u64) -> Result<(), Refusal>
    ensures { number_given result ≡ label_number s.now d.now n }
{
    sheet_and_document(s, d)?;
    if n < 1 {
        return Err(Refusal::NotThere);
    }
    let all = byte_at(s, 0) + byte_at(d, 0);
    if (all as u64) < n {
        return Err(Refusal::NotThere);
    }
    Ok(())
}

// The bytes of a label: the part itself of the sheet's section or of the document's, without its length byte; empty on a
// refusal.
pub fn label_bytes<'a>(s: &'a [u8], d: &'a [u8], n: u64) -> &'a [u8]
    ensures { result.now ≡ label_part s.now d.now n }
{
    match sheet_and_document(s, d) {
        Ok(_) => {
            if n < 1 {
                return &s[..0];
            }
            let i = n as usize;
            let k = byte_at(s, 0);
            if i <= k {
                return text_at(s, after_labels(s, 1, i - 1));
            }
            if i - k <= byte_at(d, 0) {
                return text_at(d, after_labels(d, 1, i - k - 1));
            }
            &s[..0]
        }
        Err(_) => &s[..0],
    }
}
