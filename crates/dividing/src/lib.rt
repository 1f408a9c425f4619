// The rate of a child from its class's. Document 01, "Rates", and document 02, (f).
#![tactic(auto)]

ghost use Rattle.std.specs.Prelude.{◌≡◌, false, ◌≤◌};
ghost use Rattle.definitions.specs.Limits.{whole_share, greatest_rate};
ghost use Rattle.definitions.specs.Tree.{tree_of, is_stated};
ghost use Rattle.definitions.specs.Rates.{left_rate, unstated_rate, child_rate};
ghost use Rattle.dividing.specs.Divisions.{Divided, Divides};

use sums::UnderClass;
use table::{AccountTable, Table, tree};

// What the rate of a fixed or weighted child is part of: it is `whole` x share / `parts`, rounded down.
#[derive(Clone, Copy)]
pub struct Division {
    pub whole: u64,
    pub parts: u64,
}

// What the stated rates leave of a class's rate, which they may exceed in a table that is not in order.
#[tactic(auto, unfolding(definitions::specs::Rates::unstated_rate))]
fn unstated_rate(rate: u64, stated: u64) -> u64
    ensures { result ≡ unstated_rate rate stated }
{
    rate.saturating_sub(stated)
}

// What the fixed shares leave of a rate, rounded down.
#[tactic(auto, using(sums::proofs::Rated::product_small), unfolding(definitions::specs::Rates::left_rate))]
fn left_rate(rate: u64, fixed: u64) -> u64
    requires { (rate ≤ greatest_rate) × (fixed ≤ whole_share) }
    ensures { result ≡ left_rate rate fixed }
{
    rate * (Table::WHOLE_SHARE - fixed) / Table::WHOLE_SHARE
}

// The division that gives node k, not the root and not stated, its rate, from its class's rate and the sums under its class: a
// fixed share divides what the stated rates leave of that rate, a weighted one what the fixed shares leave of this.
pub fn division_of(table: &AccountTable, k: usize, rate: u64, sums: UnderClass) -> Division
    requires { Divided table.now k rate sums × (is_stated (tree_of table.now) k ≡ false) }
    ensures { Divides (tree_of table.now) rate k result }
{
    let rest = unstated_rate(rate, sums.stated);
    let left = left_rate(rest, sums.fixed);
    if tree::is_fixed(table, k) {
        return Division {
            whole: rest,
            parts: Table::WHOLE_SHARE,
        };
    }
    Division {
        whole: left,
        parts: sums.weights,
    }
}

// The rate of node k, not the root, from its class's rate and the sums under its class: a stated one is its share.
#[tactic(auto, unfolding(definitions::specs::Tree::tree_of))]
pub fn child_rate(table: &AccountTable, k: usize, rate: u64, sums: UnderClass) -> u64
    requires { Divided table.now k rate sums }
    ensures { result ≡ child_rate (tree_of table.now) rate k }
{
    let share = Table::natural(table, k, Table::SHARE);
    if tree::is_stated(table, k) {
        return share;
    }
    let by = division_of(table, k, rate, sums);
    by.whole * share / by.parts
}
