// The turn of a node: from its word, and its label, to the word of its parent.
ghost use Rattle.std.specs.Prelude.{◌<◌, ◌≡◌, length};
ghost use Rattle.base.specs.Choice.{pick};
ghost use Rattle.laws.specs.HasAll.{has_all};
ghost use Rattle.matching.specs.NodeTurns.{given, turned};

use crate::masks::Masks;
use meaning::MOST_STEPS;

// Does the word have all bits of the mask?
#[tactic(auto, unfolding(laws::specs::HasAll::has_all))]
pub fn has_all(word: u16, mask: u16) -> bool
    ensures { result ≡ has_all word mask }
{
    word & mask == mask
}

// The bit, where it is so.
#[tactic(auto, unfolding(base::specs::Choice::pick))]
fn bit_where(bit: u16, so: bool) -> u16
    ensures { result ≡ pick so bit 0 }
{
    if so { bit } else { 0 }
}

impl Masks {
    // What a node with this word and this label gives to its parent: the far steps of the word, and the steps that the
    // node fits. No test in the loop decides where it goes on, so that the compiler makes vectors of it.
    fn given(&self, word: u16, label: u16) -> u16
        ensures { result ≡ given self.now word label }
    {
        let mut bits: u16 = word & self.far;
        for k in 0..MOST_STEPS {
            let fits = self.labels[k] == label & self.cares[k];
            let kids_hold = has_all(word, self.children[k + 1]);
            bits |= bit_where(self.own[k], fits & kids_hold);
        }
        bits
    }

    // The turn of node u with this label, whose parent is node up: the parent's word takes what the node gives.
    #[tactic(auto, unfolding(crate::specs::NodeTurns::turned))]
    pub fn turn(&self, words: &mut [u16], u: usize, up: usize, label: u16)
        requires { (u < length words.old) × (up < length words.old) }
        ensures { words.new ≡ turned self.now words.old u up label }
    {
        words[up] |= self.given(words[u], label);
    }
}
