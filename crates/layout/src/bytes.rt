// Bytes of a plan, and the integers that they make, low byte first.
ghost use Rattle.std.specs.Prelude.{◌≡◌, ◌+◌, ◌<◌, ◌≤◌, length};
ghost use Rattle.planformat.specs.Bytes.{byte_values, pair_values, four_values, byte_at, le2, le4};
ghost use Rattle.planformat.specs.Format.{share_length, share_values, share_from};

use crate::Edition;

// The byte at place i.
#[tactic(auto, unfolding(planformat::specs::Bytes::byte_at))]
pub fn byte(s: &[u8], i: usize) -> u64
    requires { i < length s.now }
    ensures byte { result ≡ byte_at s.now i }
    ensures small { result < byte_values }
{
    u64::from(s[i])
}

// The integer of the two bytes, and of the four bytes, from place i on.
// Kept: the new form is no plainer: two bytes and four have definitions of their own, and each body is one line.
pub fn pair(s: &[u8], i: usize) -> u64
    requires { i + 1 < length s.now }
    ensures pair { result ≡ le2 s.now i }
    ensures small { result < pair_values }
{
    u64::from(u16::from_le_bytes([s[i], s[i + 1]]))
}

pub fn four(s: &[u8], i: usize) -> u64
    requires { i + 3 < length s.now }
    ensures four { result ≡ le4 s.now i }
    ensures small { result < four_values }
{
    u64::from(u32::from_le_bytes([s[i], s[i + 1], s[i + 2], s[i + 3]]))
}

// The share of a plan of this edition, from place i on.
#[tactic(auto, unfolding(planformat::specs::Format::share_length, planformat::specs::Format::share_values, planformat::specs::Format::share_from))]
pub fn share(s: &[u8], edition: Edition, i: usize) -> u64
    requires { i + share_length edition ≤ length s.now }
    ensures share { result ≡ share_from edition s.now i }
    ensures small { result < share_values edition }
{
    match edition {
        Edition::First => pair(s, i),
        Edition::Second => four(s, i),
    }
}
