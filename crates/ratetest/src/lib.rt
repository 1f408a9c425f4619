// Whether the rates are right: each against its class's as it stands, by multiplication. No rate is worked out.
#![tactic(auto)]

ghost use Rattle.std.specs.Prelude.{◌≡◌, ◌*◌, ◌/◌, ◌<◌, ◌≤◌, eqb};
ghost use Rattle.definitions.specs.Limits.{nodes, whole_share, greatest_rate};
ghost use Rattle.definitions.specs.Tree.{tree_of, there, test_if, each_node};
ghost use Rattle.definitions.specs.Order.{rate_in_order};
ghost use Rattle.sums.specs.Sums.{ShareSums};
ghost use Rattle.ratetest.specs.Following.{rate_follows, Testable};

use dividing::Division;
use table::{AccountTable, Table, tree};

// Whether a rate is that of a child with this share, by the division: its quotient rounded down.
#[tactic(auto, using(sums::proofs::Rated::product_small, crate::proofs::Following::quotient_by_product))]
fn is_part(rate: u64, share: u64, by: Division) -> bool
    requires { (rate ≤ greatest_rate) × (share ≤ greatest_rate) × (by.whole ≤ greatest_rate) × (0 < by.parts) × (by.parts ≤ nodes * whole_share) }
    ensures { result ≡ eqb rate (by.whole * share / by.parts) }
{
    let product = by.whole * share;
    let least = rate * by.parts;
    (least <= product) & (product < least + by.parts)
}

// Whether the rate of node k, where it is there, is the one that its class's rate, as it stands, gives it.
fn rate_follows(table: &AccountTable, shares: &[u64; Table::SHARE_SUMS], k: usize) -> bool
    requires { Testable table.now × ShareSums (tree_of table.now) nodes shares.now × (0 < k) × (k < nodes) }
    ensures { result ≡ test_if (there (tree_of table.now) k) (rate_follows table.now) k }
{
    if !tree::there(table, k) {
        return true;
    }
    let rate = Table::unsigned(table, k, Table::RATE);
    let share = Table::unsigned(table, k, Table::SHARE);
    if tree::is_stated(table, k) {
        return rate == share;
    }
    let parent = Table::unsigned(table, k, Table::PARENT) as usize;
    let class_rate = Table::unsigned(table, parent, Table::RATE);
    let by = dividing::division_of(table, k, class_rate, sums::under(shares, parent));
    is_part(rate, share, by)
}

// Whether every rate is that of document 01, "Rates", as document 02, (f), has it, by the sums.
pub fn rates_in_order(table: &AccountTable, shares: &[u64; Table::SHARE_SUMS]) -> bool
    requires { Testable table.now × ShareSums (tree_of table.now) nodes shares.now }
    ensures { result ≡ each_node (tree_of table.now) (rate_in_order table.now) }
{
    let mut ok = true;
    for k in 1..Table::NODES {
        ok = ok & rate_follows(table, shares, k);
    }
    ok
}
