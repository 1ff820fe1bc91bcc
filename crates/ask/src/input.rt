// The parts of a question, read from standard input. Each is `None` where the input ended inside it.
ghost use Rattle.std.specs.Prelude.{IfSome};
ghost use Rattle.io.specs.Counts.{IsPrefixLen};

use crate::STDIN_FILENO;

// N bytes.
fn exactly<const N: usize>() -> Option<[u8; N]> {
    let mut b = [0u8; N];
    if io::read_full(STDIN_FILENO, &mut b) < N {
        return None;
    }
    Some(b)
}

// The letter that a question begins with, or that there is none.
pub fn letter() -> Option<u8> {
    let one: [u8; 1] = exactly()?;
    Some(one[0])
}

// Two bytes, the low byte first.
pub fn limit() -> Option<u16> {
    Some(u16::from_le_bytes(exactly()?))
}

// Eight bytes, the low byte first.
pub fn number() -> Option<u64> {
    Some(u64::from_le_bytes(exactly()?))
}

// How many of the buffer's bytes: a number of two bytes.
pub fn room(buf: &[u8]) -> Option<usize>
    ensures { IfSome result (λ n. IsPrefixLen n buf.now) }
{
    let n = limit()?;
    Some(io::count(n as isize, buf))
}

// Bytes after their length, to the start of the buffer.
pub fn bytes(buf: &mut [u8]) -> Option<usize>
    ensures { IfSome result (λ n. IsPrefixLen n buf.new) }
{
    let n = room(buf)?;
    if io::read_full(STDIN_FILENO, &mut buf[..n]) < n {
        return None;
    }
    Some(n)
}
