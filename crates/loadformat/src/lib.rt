// The types of the code that the laws of a load speak of; the text of a load is defined in specs/.
#![tactic(auto)]

ghost use Rattle.std.specs.Prelude.{◌^◌, ◌<◌};

use text::Text;

// What a part's buffer holds.
pub const PART_LENGTH: usize = 65536;

// A part of the text in a buffer that it owns, for callers that have none to lend.
pub type Part = Text<PART_LENGTH>;

// How far a load is: the state of the draws, and the ticks made and asked for.
#[derive(Clone, Copy)]
pub struct Progress {
    pub state: u32,
    pub made: u64,
    pub ticks: u64,
    pub ghost few: { ticks < 2 ^ 32 },
}
