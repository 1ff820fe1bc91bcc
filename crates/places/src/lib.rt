// What stands at a place in lent bytes: a byte, a number of two bytes, the end; and a count within its limit.
#![tactic(auto)]

ghost use Rattle.std.specs.Prelude.{◌≡◌, ◌<◌, leb, get_or};
ghost use Rattle.base.specs.Choice.{pick};
ghost use Rattle.places.specs.Bytes.{pair_at, end_place};

use meaning::Refusal;

// The byte at a place, 0 past the end.
pub fn byte_at(s: &[u8], i: usize) -> usize
    ensures { (result ≡ get_or s.now i 0) × (result < 256) }
{
    if i < s.len() { s[i] as usize } else { 0 }
}

// The number of two bytes at x, the low one first.
pub fn pair_at(s: &[u8], x: usize) -> usize
    ensures { (result ≡ pair_at s.now x) × (result < 65536) }
{
    if s.len() <= x {
        return 0;
    }
    byte_at(s, x) + 256 * byte_at(s, x + 1)
}

// A count, or 0 where it is over its limit.
pub fn within(n: usize, most: usize) -> usize
    ensures { result ≡ pick (leb n most) n 0 }
{
    if n <= most { n } else { 0 }
}

// No byte remains.
pub fn end(s: &[u8], x: usize) -> Result<usize, Refusal>
    ensures { result ≡ end_place s.now x }
{
    if x < s.len() {
        return Err(Refusal::BytesRemain);
    }
    Ok(x)
}
