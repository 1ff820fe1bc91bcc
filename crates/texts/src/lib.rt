// Text that is put into a lent output: bytes, numbers in decimal and other pieces, while there is room.
#![tactic(auto)]

pub mod pattern; // pattern.rt: a pattern as text

ghost use Rattle.std.specs.Prelude.{◌≡◌, ◌++◌, ◌∷◌, []};
ghost use Rattle.meaning.specs.Printing.{decimal, refused_text};
ghost use Rattle.texts.specs.PutText.{written, put};
ghost use Rattle.texts.specs.Puts.{Puts};
ghost use Rattle.texts.specs.Wanted.{byte_if};

// A lent output, and the place where its next byte goes.
#[derive(Drop)]
pub struct Text<'a> {
    pub out: &'a mut [u8],
    pub at: usize,
}

impl<'a> Text<'a> {
    // From the output's start on.
    pub fn new(out: &'a mut [u8]) -> Text<'a>
        ensures same { result.out.ghost_name ≡ out.entry.ghost_name }
        ensures begins { written result.out.now result.at ≡ written out.old 0 }
    {
        Text { out, at: 0 }
    }

    // A byte, if there is room for it.
    pub fn put_byte(&mut self, b: u8)
        ensures { Puts self.old self.new (b ∷ []) }
    {
        if self.at < self.out.len() {
            self.out[self.at] = b;
            self.at += 1;
        }
    }

    // Bytes.
    pub fn put_bytes(&mut self, bytes: &[u8])
        ensures { Puts self.old self.new bytes.now }
    {
        for b in bytes {
            self.put_byte(*b);
        }
    }

    // A byte, if it is wanted.
    pub fn put_if(&mut self, wanted: bool, b: u8)
        ensures { Puts self.old self.new (byte_if wanted b) }
    {
        if wanted {
            self.put_byte(b);
        }
    }

    // A number in decimal.
    pub fn put_decimal(&mut self, n: usize)
        ensures { Puts self.old self.new (decimal n) }
    {
        if n < 10 {
            self.put_byte(b'0' + n as u8);
        } else {
            self.put_decimal(n / 10);
            self.put_byte(b'0' + (n % 10) as u8);
        }
    }

    // A number in decimal, and bytes.
    pub fn put_counted(&mut self, n: usize, bytes: &[u8])
        ensures { Puts self.old self.new (decimal n ++ bytes.now) }
    {
        self.put_decimal(n);
        self.put_bytes(bytes);
    }
}

// A refusal: its number; the next place.
pub fn put_refused(out: &mut [u8], n: usize) -> usize
    ensures { written out.new result ≡ put (written out.old 0) (refused_text n) }
{
    let mut text = Text::new(out);
    text.put_bytes(b"refused ");
    text.put_counted(n, b"\n");
    text.at
}
