// What a request costs, from its size: in tokens, in grains, and whether a client's depth has room for it.
#![tactic(auto)]

ghost use Rattle.std.specs.Prelude.{◌≡◌, ◌≤◌, ltb};
ghost use Rattle.definitions.specs.Limits.{greatest_depth};
ghost use Rattle.definitions.specs.Cost.{cost, size_within};
ghost use Rattle.definitions.specs.Tick.{grains};

use table::Table;

// What a cost adds to a size at most, in tokens.
const MOST_ADDED: u64 = 16;

// The cost of a size, in tokens. Document 02, request (a).
#[tactic(auto, unfolding(definitions::specs::Cost::cost))]
pub fn cost(size: u64) -> u64
    requires { size ≤ greatest_depth }
    ensures { result ≡ cost size }
{
    match size {
        0..=7 => 8,
        8..=63 => size + 4,
        64..=511 => size + 8,
        _ => size + 16,
    }
}

// What a request of this size is charged, in grains.
#[tactic(auto, using(definitions::proofs::Cost::cost_bounds), unfolding(definitions::specs::Tick::grains))]
pub fn grains(size: u64) -> u64
    requires { size ≤ greatest_depth }
    ensures { result ≡ grains size }
{
    Table::grains(cost(size))
}

// Whether a request of this size costs more than a depth. A size above the depth does, whatever its range.
#[tactic(auto, using(definitions::proofs::Cost::cost_bounds))]
pub fn above(size: u64, depth: u64) -> bool
    requires { depth ≤ greatest_depth }
    ensures { result ≡ ltb depth (cost size) }
{
    if depth < size {
        return true;
    }
    let cost = cost(size);
    depth < cost
}

// Whether a request of this size may wait at a client of this depth. A size that is below the depth by what a cost adds at
// most may, whatever its range.
pub fn within(size: i64, depth: u64) -> bool
    requires { depth ≤ greatest_depth }
    ensures { result ≡ size_within depth size }
{
    let tokens = numbers::natural(size);
    let least = 1 <= tokens;
    if tokens + MOST_ADDED <= depth {
        return least;
    }
    let above = above(tokens, depth);
    least & !above
}
