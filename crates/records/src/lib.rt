// Each record with its parent's: what a node's record is held to beyond the limits of its places.
#![tactic(auto)]

ghost use Rattle.std.specs.Prelude.{◌≡◌, suc, ◌<◌, ◌≤◌, eqb};
ghost use Rattle.definitions.specs.Limits.{nodes, greatest_depth};
ghost use Rattle.definitions.specs.Tree.{tree_of, is_class, test_if};
ghost use Rattle.definitions.specs.Order.{parent_in_order};
ghost use Rattle.records.specs.Record.{class_placed, balance_within, node_in_order, record_in_order, records_in_order};

use table::{AccountTable, Table, tree};

// Whether n is the next number after m.
fn follows(n: u64, m: u64) -> bool
    ensures { result ≡ eqb n (suc m) }
{
    if n == 0 {
        return false;
    }
    n - 1 == m
}

// Whether the parent of node k is a class one level above it.
#[tactic(auto, unfolding(definitions::specs::Tree::tree_of))]
fn parent_in_order(table: &AccountTable, k: usize) -> bool
    requires { (k < nodes) × ((tree_of table.now).parent k < nodes) }
    ensures { result ≡ parent_in_order (tree_of table.now) k }
{
    let parent = Table::natural(table, k, Table::PARENT) as usize;
    let class = tree::is_class(table, parent);
    let level = follows(
        Table::natural(table, k, Table::LEVEL),
        Table::natural(table, parent, Table::LEVEL),
    );
    (k == 0) | (class & level)
}

// Whether node k, where it is a class, has level 0 to 3 and nothing waiting.
fn class_placed(table: &AccountTable, k: usize) -> bool
    requires { k < nodes }
    ensures { result ≡ test_if (is_class (tree_of table.now) k) (class_placed table.now) k }
{
    let class = tree::is_class(table, k);
    let level = Table::natural(table, k, Table::LEVEL) <= Table::LAST_CLASS_LEVEL;
    let idle = Table::natural(table, k, Table::WAITING) == 0;
    !class | (level & idle)
}

// Whether the balance of node k keeps its own limits.
#[tactic(auto, unfolding(definitions::specs::Tree::tree_of, definitions::specs::Places::depth_grains))]
fn balance_within(table: &AccountTable, k: usize) -> bool
    requires { (k < nodes) × ((tree_of table.now).depth k ≤ greatest_depth) }
    ensures { result ≡ balance_within table.now k }
{
    let grains = Table::depth_grains(table, k);
    let class = tree::is_class(table, k);
    let below = places::negative(table, k, Table::BALANCE);
    let high = Table::natural(table, k, Table::BALANCE) <= grains;
    let low = below <= Table::LAST_LEVEL * grains;
    high & low & (class | (below == 0))
}

// Whether node k, which is there, is in order as far as its record and its parent's tell.
fn node_in_order(table: &AccountTable, k: usize) -> bool
    requires { k < nodes }
    ensures { result ≡ node_in_order table.now k }
{
    if !places::limits_kept(table, k) {
        return false;
    }
    let spare = places::spare_in_order(table, k);
    let parent = parent_in_order(table, k);
    let class = class_placed(table, k);
    let balance = balance_within(table, k);
    let rate = places::place_within(table, k, Table::RATE, 0, Table::GREATEST_RATE);
    spare & parent & class & balance & rate
}

// Whether record k is in order, used or not.
fn record_in_order(table: &AccountTable, k: usize) -> bool
    requires { k < nodes }
    ensures { result ≡ record_in_order table.now k }
{
    if !tree::there(table, k) {
        return places::zeros(table, Table::HEADER + Table::RECORD * k, Table::RECORD);
    }
    node_in_order(table, k)
}

// Whether every record is in order.
#[tactic(auto, unfolding(crate::specs::Record::records_in_order))]
pub fn records_in_order(table: &AccountTable) -> bool
    ensures { result ≡ records_in_order table.now }
{
    numbers::all_below(Table::NODES, |k| record_in_order(table, k))
}
