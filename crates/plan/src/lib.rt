// Plan files: reading and writing them, and the check for the cabinet's firmware. Document 01, "Same tree, and the plan
// file".
#![tactic(auto)]

ghost use Rattle.std.specs.Prelude.{◌≡◌};
ghost use Rattle.planlaws.specs.Reading.{check_answer};

pub use layout::{Node, Share, Sort};
pub use reading::{check, read};
pub use writing::write;

// For the cabinet's firmware in C: the refusal number of plan bytes, or 0.
// Kept: a named form of document 01 needs it: one function over a byte slice that answers 0 or the number.
pub fn hds_plan_check(contents: &[u8]) -> u32
    ensures { result ≡ check_answer contents.now }
{
    answers::number_told(reading::check(contents)) as u32
}
