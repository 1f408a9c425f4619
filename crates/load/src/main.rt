// Prints the dispatches of a load that can be repeated, a line for each: tick, client, tag, size, supplier. Standard input has the
// seed, the number of ticks and a plan. Document 02, (d).
#![tactic(auto)]

ghost use Rattle.std.specs.Prelude.{◌≡◌, ◌≤◌, IfOk, MatchResult};
ghost use Rattle.loadformat.specs.Parts.{opening, ticks_allowed, part_of};

use table::Table;
use text::LentText;

// The numbers of the standard streams.
// Kept: the new form is no plainer: std's streams come from a runtime that each function takes, and answer causes that go unused here.
const STDIN: i32 = 0;

const STDOUT: i32 = 1;

const STDERR: i32 = 2;

// That writing failed, at the text up to a tick.
#[derive(Clone, Copy)]
struct WriteFailed {
    tick: u64,
}

// Hands on what stands before the first tick of an input. The answer is the tick up to which the text was handed on.
fn send_opening(part: &[u8], input: &[u8]) -> Result<u64, WriteFailed>
    requires { part.now ≡ opening input.now }
    ensures { MatchResult result (λ tick. tick ≡ 0) (λ failed. failed.tick ≡ 0) }
{
    if !io::write_all(STDOUT, part) {
        return Err(WriteFailed { tick: 0 });
    }
    Ok(0)
}

// Hands on the part of an input behind a tick up to which the text was handed on, up to a last tick. The answer is that tick.
fn send_part(part: &[u8], input: &[u8], sent: u64, last: u64) -> Result<u64, WriteFailed>
    requires { (sent ≤ last) × (part.now ≡ part_of input.now sent last) }
    ensures { MatchResult result (λ tick. tick ≡ last) (λ failed. failed.tick ≡ last) }
{
    if !io::write_all(STDOUT, part) {
        return Err(WriteFailed { tick: last });
    }
    Ok(last)
}

// Hands on the text of an input, part by part and up to its last tick, unless writing fails.
fn send(input: &[u8]) -> Result<u64, WriteFailed>
    ensures { IfOk result (λ tick. tick ≡ ticks_allowed input.now) }
{
    let mut table = [0i64; Table::LENGTH];
    let mut buffer = io::large_buffer();
    let mut text = LentText::new(&mut buffer);
    let mut progress = loadinput::begin(&mut text, &mut table, input);
    let mut sent = send_opening(text.so_far(), input)?;
    while progress.made < progress.ticks {
        progress = loadtext::go_on(&mut text, &mut table, progress);
        sent = send_part(text.so_far(), input, sent, progress.made)?;
    }
    Ok(sent)
}

// Of an input the first 4096 bytes are read: with more, its text is the same (`first_bytes`, loadformat/proofs/Inputs.antt).
fn main() {
    let mut input = io::buffer();
    let n = io::read_full(STDIN, &mut input);
    if send(&input[..n]).is_err() {
        io::write_all(STDERR, b"load: cannot write\n");
    }
}
