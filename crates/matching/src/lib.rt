// Whether a document satisfies a pattern, by notes: for each node, and for the top, a word with the steps that hold
// below it. The nodes go from the last to the first, and each gives to its parent.
#![tactic(auto)]

mod masks; // masks.rt: a pattern as words
mod turn; // turn.rt: what a node gives to its parent

ghost use Rattle.std.specs.Prelude.{◌+◌, ◌<◌, ◌≤◌, ◌^◌, ◌≡◌, length};
ghost use Rattle.meaning.specs.Numbers.{most_nodes};
ghost use Rattle.meaning.specs.Satisfying.{satisfies};
ghost use Rattle.shapes.specs.Nodes.{nodes_in};
ghost use Rattle.shapes.specs.Shapes.{pattern_of, WellFormed};
ghost use Rattle.matching.specs.Document.{filled, TopWord};

use crate::masks::{Masks, masks_of};
use crate::turn::has_all;
use meaning::MOST_NODES;
use shapes::Pattern;
use shapes::nodes::Nodes;

// A document of at most so many nodes has its words in an array of its own, which is sooner cleared than that for any.
const FEW_NODES: usize = 64;

const SOME_NODES: usize = 256;

// A word for each node, and one for the top.
const FEW_WORDS: usize = FEW_NODES + 1;

const SOME_WORDS: usize = SOME_NODES + 1;

const MOST_WORDS: usize = MOST_NODES + 1;

// Fills the notes of a document, from the last node to the first.
fn fill(words: &mut [u16], nodes: &Nodes, m: &Masks)
    requires { nodes.now.count < length words.old }
    ensures { words.new ≡ filled m.now nodes.now.bytes.now nodes.now.at nodes.now.count words.old }
{
    // Copies of its own, which no write to a word can touch: so the compiler keeps them in registers.
    let nodes = *nodes;
    let masks = *m;
    for u in (1..=nodes.count).rev() {
        masks.turn(words, u, nodes.parent(u), u16::from(nodes.label(u)));
    }
}

// The top's word, by an array of N words. It is never put into its caller's frame, so a call takes the stack of one array.
#[inline(never)]
fn word_by<const N: usize>(nodes: &Nodes, m: &Masks) -> u16
    requires { (nodes.now.count < N) × (N ≤ most_nodes + 1) }
    ensures { TopWord m.now nodes.now.bytes.now nodes.now.at nodes.now.count result }
{
    let mut words = [0u16; N];
    fill(&mut words, nodes, m);
    words[0]
}

// The top's word when all nodes have had their turn.
fn word_at_top(nodes: &Nodes, m: &Masks) -> u16
    ensures { TopWord m.now nodes.now.bytes.now nodes.now.at nodes.now.count result }
{
    if nodes.count <= FEW_NODES {
        word_by::<FEW_WORDS>(nodes, m)
    } else if nodes.count <= SOME_NODES {
        word_by::<SOME_WORDS>(nodes, m)
    } else {
        word_by::<MOST_WORDS>(nodes, m)
    }
}

// Does the document of these nodes satisfy the pattern?
pub fn matches(nodes: &Nodes, p: Pattern) -> bool
    requires { WellFormed p }
    ensures { result ≡ satisfies (nodes_in nodes.now) (pattern_of p) }
{
    let m = masks_of(p);
    has_all(word_at_top(nodes, &m), m.children[0])
}

// One pattern was asked of one document: the answer, and how many have been asked with it.
#[derive(Clone, Copy)]
pub struct Tried {
    pub yes: bool,
    pub tried: usize,
}

// A try: asks one pattern of one document, and adds one to the count.
pub fn try_pattern(nodes: &Nodes, p: Pattern, tried: usize) -> Tried
    requires { WellFormed p × (tried < 2 ^ 32) }
    ensures { (result.yes ≡ satisfies (nodes_in nodes.now) (pattern_of p)) × (result.tried ≡ tried + 1) }
{
    Tried {
        yes: matches(nodes, p),
        tried: tried + 1,
    }
}
