// Bytes of a plan written into a buffer.
#![tactic(auto)]

ghost use Rattle.std.specs.Prelude.{◌≡◌, [], ◌∷◌, ◌++◌, ◌+◌, ◌≤◌, ◌<◌, length};
ghost use Rattle.planformat.specs.Bytes.{byte_values, bytes2, bytes4};
ghost use Rattle.planformat.specs.Format.{head_length, entry_length, body_length, share_length, start_of, mark_bytes, share_bytes};
ghost use Rattle.planformat.specs.Written.{written};

use layout::{Edition, Format};

// Writes a byte at place a.
#[tactic(auto, using(planformat::proofs::Written::written_one))]
pub fn put_byte(buffer: &mut [u8], a: usize, n: u64)
    requires { (a < length buffer.old) × (n < byte_values) }
    ensures { buffer.new ≡ written buffer.old a (n ∷ []) }
{
    buffer[a] = n as u8;
}

// Writes an integer as two bytes, and as four, from place a on.
// Kept: the new form is no plainer: two bytes and four have definitions of their own, and each body is one line.
pub fn put_pair(buffer: &mut [u8], a: usize, n: u64)
    requires { a + 2 ≤ length buffer.old }
    ensures { buffer.new ≡ written buffer.old a (bytes2 n) }
{
    buffer[a..a + 2].copy_from_slice(&n.to_le_bytes()[..2]);
}

pub fn put_four(buffer: &mut [u8], a: usize, n: u64)
    requires { a + 4 ≤ length buffer.old }
    ensures { buffer.new ≡ written buffer.old a (bytes4 n) }
{
    buffer[a..a + 4].copy_from_slice(&n.to_le_bytes()[..4]);
}

// Writes the mark of an edition.
#[tactic(auto, using(planformat::proofs::Written::written_none), unfolding(planformat::specs::Format::start_of, planformat::specs::Format::mark_bytes))]
fn put_mark(buffer: &mut [u8], edition: Edition)
    requires { start_of edition ≤ length buffer.old }
    ensures { buffer.new ≡ written buffer.old 0 (mark_bytes edition) }
{
    match edition {
        Edition::First => {}
        Edition::Second => put_four(buffer, 0, Format::MARK),
    }
}

// Writes rate, depth and count of the head, from place a on.
fn put_numbers(buffer: &mut [u8], a: usize, rate: u64, depth: u64, count: u64)
    requires { (a + head_length ≤ length buffer.old) × (count < byte_values) }
    ensures { buffer.new ≡ written buffer.old a (bytes4 rate ++ bytes4 depth ++ (count ∷ [])) }
{
    put_four(buffer, a + Format::DISK_RATE, rate);
    put_four(buffer, a + Format::ROOT_DEPTH, depth);
    put_byte(buffer, a + Format::COUNT, count);
}

// Writes the mark and the head.
pub fn put_head(buffer: &mut [u8], edition: Edition, rate: u64, depth: u64, count: u64)
    requires { (start_of edition + head_length ≤ length buffer.old) × (count < byte_values) }
    ensures { buffer.new ≡ written buffer.old 0 (mark_bytes edition ++ (bytes4 rate ++ bytes4 depth ++ (count ∷ []))) }
{
    put_mark(buffer, edition);
    put_numbers(buffer, forms::start_of(edition), rate, depth, count);
}

// Writes an entry.
pub fn put_entry(buffer: &mut [u8], a: usize, node: u64, parent: u64, offset: u64)
    requires { (a + entry_length ≤ length buffer.old) × (node < byte_values) × (parent < byte_values) }
    ensures { buffer.new ≡ written buffer.old a (node ∷ parent ∷ bytes2 offset) }
{
    put_byte(buffer, a, node);
    put_byte(buffer, a + Format::ENTRY_PARENT, parent);
    put_pair(buffer, a + Format::ENTRY_OFFSET, offset);
}

// Writes a share.
#[tactic(auto, unfolding(planformat::specs::Format::share_length, planformat::specs::Format::share_bytes))]
fn put_share(buffer: &mut [u8], edition: Edition, a: usize, share: u64)
    requires { a + share_length edition ≤ length buffer.old }
    ensures { buffer.new ≡ written buffer.old a (share_bytes edition share) }
{
    match edition {
        Edition::First => put_pair(buffer, a, share),
        Edition::Second => put_four(buffer, a, share),
    }
}

// Writes a body.
// Kept: what may not change needs it: every byte can be put as a kind.
pub fn put_body(buffer: &mut [u8], edition: Edition, a: usize, kind: u64, share: u64, depth: u64)
    requires { (a + body_length edition ≤ length buffer.old) × (kind < byte_values) }
    ensures { buffer.new ≡ written buffer.old a (kind ∷ share_bytes edition share ++ bytes4 depth) }
{
    put_byte(buffer, a, kind);
    let at = a + Format::BODY_SHARE;
    put_share(buffer, edition, at, share);
    put_four(buffer, at + forms::share_length(edition), depth);
}
