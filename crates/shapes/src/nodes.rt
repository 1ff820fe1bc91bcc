// The nodes of a document, as they stand in its bytes.
ghost use Rattle.std.specs.Prelude.{◌+◌, ◌*◌, ◌-◌, ◌≤◌, ◌<◌, ◌≡◌, length};
ghost use Rattle.meaning.specs.Numbers.{most_nodes};
ghost use Rattle.meaning.specs.Forest.{parent_in};
ghost use Rattle.meaning.specs.Satisfying.{parents_of, label_in};
ghost use Rattle.laws.specs.ReadNumbers.{Bytes};
ghost use Rattle.laws.specs.Rising.{Rising};
ghost use Rattle.shapes.specs.Shapes.{nodes_at};

// The nodes of a document: `count` of them stand in its bytes from a place on, three bytes each, and the parent of each
// has a lower number.
#[derive(Clone, Copy)]
pub struct Nodes<'a> {
    pub bytes: &'a [u8],
    pub at: usize,
    pub count: usize,
    pub ghost few: { count ≤ most_nodes },
    pub ghost inside: { at + 3 * count ≤ length bytes.now },
    pub ghost all_bytes: { Bytes bytes.now },
    pub ghost rising: { Rising (parents_of (nodes_at bytes.now at count)) },
}

impl<'a> Nodes<'a> {
    ghost use Rattle.shapes.specs.Nodes.{nodes_in};

    // Where node u stands: they are counted from 1, as 0 is the top.
    fn place(&self, u: usize) -> usize
        requires { (1 ≤ u) × (u ≤ self.now.count) }
        ensures { result ≡ self.now.at + 3 * (u - 1) }
    {
        self.at + 3 * (u - 1)
    }

    // The parent of node u: two bytes, the low byte first.
    pub fn parent(&self, u: usize) -> usize
        requires { (1 ≤ u) × (u ≤ self.now.count) }
        ensures { (result ≡ parent_in (parents_of (nodes_in self.now)) u) × (result < u) }
    {
        let a = self.place(u);
        usize::from(u16::from_le_bytes([self.bytes[a], self.bytes[a + 1]]))
    }

    // The label of node u, behind its parent.
    pub fn label(&self, u: usize) -> u8
        requires { (1 ≤ u) × (u ≤ self.now.count) }
        ensures { result ≡ label_in (nodes_in self.now) u }
    {
        self.bytes[self.place(u) + 2]
    }
}
