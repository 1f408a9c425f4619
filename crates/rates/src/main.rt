// Prints, for a plan on standard input, a line for each node in rising number: node, sort, rate. A refused plan prints one
// line with the number of the refusal. Document 01, "Same tree, and the plan file".
#![tactic(auto)]

ghost use Rattle.std.specs.Prelude.{◌≡◌};
ghost use Rattle.report.specs.Text.{report_of};

// The numbers of the standard streams.
// Kept: the new form is no plainer: std's streams come from a runtime that each function takes, and answer causes that go unused here.
const STDIN: i32 = 0;

const STDOUT: i32 = 1;

// Hands on the text of a plan to be written.
fn send(text: &[u8], contents: &[u8])
    requires { text.now ≡ report_of contents.now }
{
    io::write_all(STDOUT, text);
}

// Of an input the first 4096 bytes are read: with more, its text is the same (`first_bytes`, report/proofs/Texts.antt).
fn main() {
    let mut contents = io::buffer();
    let n = io::read_full(STDIN, &mut contents);
    let mut text = io::buffer();
    let length = report::report(&contents[..n], &mut text);
    send(&text[..length], &contents[..n]);
}
