// Where the parts of a plan stand, whether its bytes are well formed, and its nodes.
#![tactic(auto)]

ghost use Rattle.std.specs.Prelude.{◌≡◌, ◌+◌, ◌*◌, ◌≤◌, ◌<◌, eqb, length};
ghost use Rattle.numbers.specs.Below.{all_below};
ghost use Rattle.planformat.specs.Bytes.{byte_values, four_values, byte_at};
ghost use Rattle.planformat.specs.Nodes.{share_in, held_by, entry_by};
ghost use Rattle.planformat.specs.Format.{edition_of, mark_byte, mark_length, head_length, long_share, depth_length, body_share_at, last_count, last_kind, start_of, share_length, body_length, entry_at, body_at, plan_length, share_values, edition_in, count_in, entry_in, entry_formed, formed};
ghost use Rattle.planformat.specs.Numbers.{kind_number};
ghost use Rattle.planformat.specs.Framed.{Framed};

use layout::{Edition, Format, Kind, Node, bodies, bytes};

// The edition of a number.
// Kept: what may not change needs it: every number is told an edition.
#[tactic(auto, unfolding(planformat::specs::Format::edition_of))]
pub fn edition_of(number: u64) -> Edition
    ensures { result ≡ edition_of number }
{
    if number == Edition::FIRST as u64 {
        Edition::First
    } else {
        Edition::Second
    }
}

// Where the head begins.
#[tactic(auto, unfolding(planformat::specs::Format::start_of))]
pub fn start_of(edition: Edition) -> usize
    ensures start { result ≡ start_of edition }
    ensures small { result ≤ mark_length }
{
    match edition {
        Edition::First => 0,
        Edition::Second => Format::MARK_LENGTH,
    }
}

// Bytes of a share.
#[tactic(auto, unfolding(planformat::specs::Format::share_length))]
pub fn share_length(edition: Edition) -> usize
    ensures length { result ≡ share_length edition }
    ensures small { result ≤ long_share }
{
    match edition {
        Edition::First => Format::SHORT_SHARE,
        Edition::Second => Format::LONG_SHARE,
    }
}

// Bytes of a body.
fn body_length(edition: Edition) -> usize
    ensures length { result ≡ body_length edition }
    ensures small { result ≤ body_share_at + long_share + depth_length }
{
    Format::BODY_SHARE + share_length(edition) + Format::DEPTH
}

// The greatest kind.
#[tactic(auto, unfolding(planformat::specs::Format::last_kind))]
fn last_kind(edition: Edition) -> Kind
    ensures { kind_number result ≡ last_kind edition }
{
    match edition {
        Edition::First => Kind::ClientWeighted,
        Edition::Second => Kind::ClientStated,
    }
}

// Where entry i stands, and body i of a plan of n entries.
pub fn entry_at(edition: Edition, i: usize) -> usize
    requires { i ≤ last_count }
    ensures { result ≡ entry_at edition i }
{
    start_of(edition) + Format::HEAD + Format::ENTRY * i
}

pub fn body_at(edition: Edition, n: usize, i: usize) -> usize
    requires { (n ≤ last_count) × (i ≤ last_count) }
    ensures { result ≡ body_at edition n i }
{
    entry_at(edition, n) + body_length(edition) * i
}

// The length of a plan of n entries: where a body after the last would stand.
pub fn plan_length(edition: Edition, n: usize) -> usize
    requires { n ≤ last_count }
    ensures { result ≡ plan_length edition n }
{
    body_at(edition, n, n)
}

// Whether bytes begin with four bytes FF.
fn marked(s: &[u8]) -> bool
    ensures { result ≡ all_below mark_length (λ i. eqb (byte_at s.now i) mark_byte) }
{
    if s.len() < Format::MARK_LENGTH {
        return false;
    }
    numbers::all_below(
        Format::MARK_LENGTH,
        |i| bytes::byte(s, i) == Format::MARK_BYTE,
    )
}

// The edition of plan bytes.
#[tactic(auto, unfolding(planformat::specs::Format::edition_in))]
pub fn edition_in(s: &[u8]) -> Edition
    ensures { result ≡ edition_in s.now }
{
    if marked(s) {
        Edition::Second
    } else {
        Edition::First
    }
}

// The count that stands in the bytes.
pub fn count_in(s: &[u8], edition: Edition) -> usize
    requires { (edition ≡ edition_in s.now) × (start_of edition + head_length ≤ length s.now) }
    ensures { result ≡ count_in s.now }
{
    bytes::byte(s, start_of(edition) + Format::COUNT) as usize
}

// Whether the offset and the kind of entry i are right.
// Kept: the new form is no plainer: a view holds bytes of which every entry is found right.
fn entry_formed(s: &[u8], edition: Edition, n: usize, i: usize) -> bool
    requires { Framed s.now edition n × (i < n) }
    ensures { result ≡ entry_formed s.now i }
{
    let body = body_at(edition, n, i);
    let offset = bytes::pair(s, entry_at(edition, i) + Format::ENTRY_OFFSET);
    // Kept: the new form is no plainer: a byte above the edition's last kind is wrong, whether or not a kind has it.
    let kind_right = bytes::byte(s, body) <= u64::from(last_kind(edition));
    (offset == body as u64) & kind_right
}

// Whether all offsets and kinds are right.
fn entries_formed(s: &[u8], edition: Edition, n: usize) -> bool
    requires { Framed s.now edition n }
    ensures { result ≡ all_below n (entry_formed s.now) }
{
    numbers::all_below(n, |i| entry_formed(s, edition, n, i))
}

// Whether the length, the count, every offset and every kind are right.
pub fn formed(s: &[u8]) -> bool
    ensures { result ≡ formed s.now }
{
    let edition = edition_in(s);
    if s.len() < start_of(edition) + Format::HEAD {
        return false;
    }
    let n = count_in(s, edition);
    if n > Format::LAST_COUNT {
        return false;
    }
    if s.len() != plan_length(edition, n) {
        return false;
    }
    entries_formed(s, edition, n)
}

// The node of entry i and its body.
pub fn node_at(s: &[u8], edition: Edition, n: usize, i: usize) -> Node
    requires { Framed s.now edition n × (i < n) × ((entry_in s.now i).kind ≤ last_kind edition) }
    ensures entry { entry_by result ≡ entry_in s.now i }
    ensures small { (result.number < byte_values) × (result.parent < byte_values) × (share_in (held_by result.sort) < share_values edition) × (result.depth < four_values) }
{
    let at = entry_at(edition, i);
    let body = body_at(edition, n, i);
    let number = bytes::byte(s, at);
    let parent = bytes::byte(s, at + Format::ENTRY_PARENT);
    let Ok(kind) = Kind::try_from(bytes::byte(s, body)) else {
        unreachable!();
    };
    let at_share = body + Format::BODY_SHARE;
    let share = bytes::share(s, edition, at_share);
    let depth = bytes::four(s, at_share + share_length(edition));
    let sort = bodies::sort_of(kind, share);
    Node {
        number,
        parent,
        sort,
        depth,
    }
}
