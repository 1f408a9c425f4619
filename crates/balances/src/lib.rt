// What a tick does to balances: what a dispatch takes from them, and the steps in which every balance grows by its rate and in
// which none stays above its depth.
#![tactic(auto)]

ghost use Rattle.std.specs.Prelude.{◌≡◌, cond, ◌+◌, ◌<◌, ◌≤◌, ◌^◌, pos, ◌+ℤ◌};
ghost use Rattle.std.specs.Int.Signed.{le_z};
ghost use Rattle.numbers.specs.Whole.{minus, plus};
ghost use Rattle.definitions.specs.Limits.{nodes, balance_at, greatest_depth};
ghost use Rattle.definitions.specs.Places.{balance, put, rate, depth_grains};
ghost use Rattle.definitions.specs.Tree.{tree_of};
ghost use Rattle.definitions.specs.Tick.{lower, charge, grown, cut};
ghost use Rattle.balances.specs.Within.{Within};

use table::{AccountTable, Table};

// Node k's balance falls by an amount.
#[tactic(auto, unfolding(definitions::specs::Tick::lower, definitions::specs::Places::balance))]
fn lower(table: &mut AccountTable, amount: u64, k: usize)
    requires { (k < nodes) × (minus (balance table.old k) + amount ≤ 2 ^ 63) × (amount < 2 ^ 63) }
    ensures { table.new ≡ lower table.old amount k }
{
    let before = Table::get(table, k, Table::BALANCE);
    let after = numbers::lowered(before, amount);
    Table::put(table, k, Table::BALANCE, after);
}

// An amount is charged to node s and to every node above it, the root included.
#[tactic(auto, unfolding(definitions::specs::Tree::tree_of))]
pub fn charge(table: &mut AccountTable, amount: u64, s: usize)
    requires { Within table.old × (s < nodes) × (amount ≤ 2 ^ 60) }
    ensures { table.new ≡ charge table.old amount ((tree_of table.old).level s) s }
{
    let level = Table::natural(table, s, Table::LEVEL);
    let mut node = s;
    for _ in 0..level {
        let parent = Table::natural(table, node, Table::PARENT) as usize;
        lower(table, amount, node);
        node = parent;
    }
    lower(table, amount, node);
}

// Node k's balance grows by its rate.
#[tactic(auto, unfolding(definitions::specs::Places::balance, definitions::specs::Places::rate))]
fn grow_node(table: &mut AccountTable, k: usize)
    requires { (k < nodes) × (plus (balance table.old k) + rate table.old k < 2 ^ 63) }
    ensures { table.new ≡ put table.old k balance_at (balance table.old k +ℤ pos (rate table.old k)) }
{
    let rate = Table::natural(table, k, Table::RATE);
    let before = Table::get(table, k, Table::BALANCE);
    let after = numbers::raised(before, rate);
    Table::put(table, k, Table::BALANCE, after);
}

// Step 1: every node's balance grows by its rate.
#[tactic(auto, using(numbers::proofs::Steps::for_loop, crate::proofs::Sweeps::growth_fits), unfolding(definitions::specs::Tick::grown))]
pub fn grow(table: &mut AccountTable)
    requires { Within table.old }
    ensures { table.new ≡ grown table.old }
{
    for k in 0..Table::NODES {
        grow_node(table, k);
    }
}

// Node k's balance is cut to its depth where it is above.
#[tactic(auto, unfolding(definitions::specs::Places::balance, definitions::specs::Tree::tree_of))]
fn cut_node(table: &mut AccountTable, k: usize)
    requires { (k < nodes) × ((tree_of table.old).depth k ≤ greatest_depth) }
    ensures { table.new ≡ cond (le_z (balance table.old k) (pos (depth_grains table.old k))) table.old (put table.old k balance_at (pos (depth_grains table.old k))) }
{
    let most = Table::depth_grains(table, k);
    let balance = Table::get(table, k, Table::BALANCE);
    if numbers::at_most(balance, numbers::whole(most)) {
        return;
    }
    Table::put_natural(table, k, Table::BALANCE, most);
}

// Step 3: every balance above depth x 1000 is cut to that.
#[tactic(auto, using(numbers::proofs::Steps::for_loop, crate::proofs::Sweeps::cutting_fits), unfolding(definitions::specs::Tick::cut))]
pub fn cut(table: &mut AccountTable)
    requires { Within table.old }
    ensures { table.new ≡ cut table.old }
{
    for k in 0..Table::NODES {
        cut_node(table, k);
    }
}
