// The waiting requests of one node that a table shows.
ghost use Rattle.std.specs.Prelude.{◌≡◌, ◌<◌, ◌≤◌};
ghost use Rattle.definitions.specs.Limits.{nodes, most_waiting};
ghost use Rattle.definitions.specs.Places.{waiting, arrival};
ghost use Rattle.definitions.specs.Order.{differs_at};

use crate::{AccountTable, Table};

// How many requests wait at node k.
#[tactic(auto, unfolding(definitions::specs::Places::waiting))]
pub fn waiting(table: &AccountTable, k: usize) -> usize
    requires { k < nodes }
    ensures { result ≡ waiting table.now k }
{
    Table::natural(table, k, Table::WAITING) as usize
}

// The arrival number of waiting request i of node k.
#[tactic(auto, unfolding(definitions::specs::Places::arrival))]
pub fn arrival(table: &AccountTable, k: usize, i: usize) -> u64
    requires { (k < nodes) × (i < most_waiting) }
    ensures { result ≡ arrival table.now k i }
{
    Table::natural(table, k, Table::QUEUE + Table::REQUEST * i + Table::ARRIVAL)
}

// Whether arrival number a differs from those that wait at node j.
#[tactic(auto, unfolding(definitions::specs::Order::differs_at))]
pub fn differs_at(table: &AccountTable, a: u64, j: usize) -> bool
    requires { (j < nodes) × (waiting table.now j ≤ most_waiting) }
    ensures { result ≡ differs_at table.now a j }
{
    numbers::all_below(waiting(table, j), |i| a != arrival(table, j, i))
}
