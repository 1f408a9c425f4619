// What each class covers: fixed shares, stated rates, depths and balances under it.
ghost use Rattle.std.specs.Prelude.{◌≡◌, true, ◌<◌, ◌≤◌, ◌^◌};
ghost use Rattle.definitions.specs.Limits.{nodes};
ghost use Rattle.definitions.specs.Tree.{tree_of, is_class, test_if, each_class};
ghost use Rattle.records.specs.Record.{records_in_order};
ghost use Rattle.covering.specs.Cover.{stated_limit, class_covers, Sums, Totals};

use crate::totals::{ClassSums, Covered};
use table::{AccountTable, Table, tree};

// What the stated rates under class c may sum to: the disk's rate under the root, and nothing elsewhere.
#[tactic(auto, unfolding(crate::specs::Cover::stated_limit, definitions::specs::Places::rate))]
fn stated_limit(table: &AccountTable, c: usize) -> u64
    requires { c < nodes }
    ensures { result ≡ stated_limit table.now c }
{
    let rate = Table::natural(table, 0, Table::RATE);
    if c == 0 {
        return rate;
    }
    0
}

// Whether node c, where it is a class, covers what stands under it, by its sums.
fn class_covers(table: &AccountTable, c: usize, under: Covered) -> bool
    requires { (c < nodes) × (records_in_order table.now ≡ true) × Sums table.now c under.shares under.depths under.credits under.debts × (under.credits ≤ 2 ^ 63) × (under.debts ≤ 2 ^ 63) }
    ensures { result ≡ test_if (is_class (tree_of table.now) c) (class_covers table.now) c }
{
    if !tree::is_class(table, c) {
        return true;
    }
    let depth = Table::natural(table, c, Table::DEPTH);
    let needed = under.credits + places::negative(table, c, Table::BALANCE);
    let covered = under.debts
        + Table::natural(table, c, Table::BALANCE)
        + Table::depth_grains(table, c);
    let stated = under.shares.stated <= stated_limit(table, c);
    (under.shares.fixed <= Table::WHOLE_SHARE)
        & (under.depths <= depth)
        & (needed <= covered)
        & stated
}

// Whether every class covers what stands under it, by the sums.
#[tactic(auto, using(numbers::proofs::All::all_loop), unfolding(definitions::specs::Tree::each_class))]
pub fn classes_cover(table: &AccountTable, sums: &ClassSums) -> bool
    requires { (records_in_order table.now ≡ true) × Totals table.now nodes sums.now.shares sums.now.depths sums.now.credits sums.now.debts }
    ensures { result ≡ each_class (tree_of table.now) (class_covers table.now) }
{
    let mut ok = true;
    for c in 0..Table::NODES {
        ok = ok & class_covers(table, c, sums.under(c));
    }
    ok
}
