// The draws of a load. Document 02, (d).
#![tactic(auto)]

ghost use Rattle.std.specs.Prelude.{◌≡◌, ◌*◌, ◌%◌, ◌^◌, ◌<◌};
ghost use Rattle.draws.specs.Draws.{next_state, upper};

const MULTIPLIER: u32 = 1664525;

const INCREMENT: u32 = 1013904223;

// How many values 32 bits have, and 16 bits.
const WORD_VALUES: u64 = 4294967296;

const HALF_VALUES: u32 = 65536;

// a x b, wrapping at 32 bits.
// Kept: a named form of document 01 needs it: a product proved against its remainder, and no `wrapping_mul`.
#[tactic(auto, using(crate::proofs::Draws::product_fits))]
pub fn wrapping_product(a: u32, b: u32) -> u32
    ensures { result ≡ (a * b) % 2 ^ 32 }
{
    let product = a as u64 * b as u64;
    (product % WORD_VALUES) as u32
}

// The new state of a draw.
#[tactic(auto, using(crate::proofs::Draws::next_wraps))]
pub fn next_state(state: u32) -> u32
    ensures { result ≡ next_state state }
{
    wrapping_product(state, MULTIPLIER).wrapping_add(INCREMENT)
}

// What is drawn when a state is new: its upper 16 bits.
#[tactic(auto, unfolding(crate::specs::Draws::upper))]
pub fn upper(state: u32) -> u64
    ensures drawn { result ≡ upper state }
    ensures small { result < 2 ^ 16 }
{
    (state / HALF_VALUES) as u64
}
