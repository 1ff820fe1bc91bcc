// Which labels can stand in a line of the notation.
ghost use Rattle.std.specs.Prelude.{◌≡◌};
ghost use Rattle.meaning.specs.Notation.{barred, writable};

// A byte that no label of a line has.
pub fn barred(b: u8) -> bool
    ensures { result ≡ barred b }
{
    matches!(b, b'/' | b'*' | b'[' | b']' | b'.' | b'\n')
}

// A label that can stand in a line.
pub fn writable(text: &[u8]) -> bool
    ensures { result ≡ writable text.now }
{
    text.iter().all(|b| !barred(*b))
}
