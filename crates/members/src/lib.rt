// A set of subscriptions as a number: bit i is subscription i. Who is in it, how it is made, its bytes, how many it has.
#![tactic(auto)]

ghost use Rattle.std.specs.Prelude.{◌+◌, ◌^◌, ◌≤◌, ◌<◌, ◌≡◌, length};
ghost use Rattle.std.specs.Int.Bits.{bit_or};
ghost use Rattle.std.proofs.lemmas.List.Edits.{sets};
ghost use Rattle.meaning.specs.Numbers.{most_patterns};
ghost use Rattle.meaning.specs.Fair.{is_member};
ghost use Rattle.meaning.specs.Routing.{sheds_in, lowest_shed};
ghost use Rattle.meaning.specs.Written.{number_bytes};
ghost use Rattle.laws.specs.Marks.{marked};
ghost use Rattle.members.specs.Fitting.{members_fit};

use meaning::MOST_PATTERNS;

// Is subscription i a member?
pub fn is_member(members: u64, i: usize) -> bool
    requires { i < most_patterns }
    ensures { result ≡ is_member members i }
{
    (members >> i) % 2 == 1
}

// Subscription i alone.
pub fn alone(i: usize) -> u64
    requires { i < most_patterns }
    ensures { result ≡ 2 ^ i }
{
    1 << i
}

// The members of both.
pub fn union(a: u64, b: u64) -> u64
    ensures { result ≡ bit_or a b }
{
    a | b
}

// The set, with subscription i in it where the answer is yes.
pub fn mark(set: u64, i: usize, said: bool) -> u64
    requires { i < most_patterns }
    ensures { result ≡ marked set i said }
{
    if said { union(set, alone(i)) } else { set }
}

// Are there members, and all within a sheet of n subscriptions?
pub fn members_fit(members: u64, n: usize) -> bool
    requires { n ≤ most_patterns }
    ensures { result ≡ members_fit n members }
{
    if members == 0 {
        false
    } else if n == MOST_PATTERNS {
        true
    } else {
        members < alone(n)
    }
}

// Eight bytes of members, the low byte first, from a place on.
pub fn put_members(out: &mut [u8], at: usize, members: u64)
    requires { at + 8 ≤ length out.old }
    ensures { out.new ≡ sets out.old at (number_bytes 8 members) }
{
    out[at..at + 8].copy_from_slice(&members.to_le_bytes());
}

// How many sheds get a notice.
pub fn sheds(set: u64) -> u32
    ensures { result ≡ sheds_in set }
{
    u64::count_ones(set)
}

// The lowest shed, 64 when there is none.
pub fn lowest_shed(set: u64) -> u32
    ensures { result ≡ lowest_shed set }
{
    u64::trailing_zeros(set)
}
