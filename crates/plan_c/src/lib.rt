// The check of `plan` as a static library for the cabinet's firmware in C.
// Kept: the C interface needs it: an archive exports the functions of its own crate only.
#![tactic(auto)]

ghost use Rattle.std.specs.Prelude.{◌≡◌};
ghost use Rattle.planlaws.specs.Reading.{check_answer};

// For the cabinet's firmware in C: the refusal number of plan bytes, or 0.
#[unsafe(no_mangle)]
pub extern "C" fn hds_plan_check(contents: &[u8]) -> u32
    ensures { result ≡ check_answer contents.now }
{
    plan::hds_plan_check(contents)
}
