// Change share.
#![tactic(auto)]

ghost use Rattle.std.specs.Prelude.{◌≡◌, true, ◌≤◌, ◌<◌, pos};
ghost use Rattle.definitions.specs.Limits.{nodes, root, greatest_rate};
ghost use Rattle.definitions.specs.Tree.{tree_of, there};
ghost use Rattle.answers.specs.Answers.{told, number_in};
ghost use Rattle.definitions.specs.Calls.{change_share_limits, shares_above, stated_wrong, reshared, change_share_refusal, change_share_table, change_share_answer};

use answers::Refusal;
use order::Ordered;
use table::{AccountTable, Table};

fn change_share_limits(node: i64, kind: i64, share: i64) -> bool
    ensures { result ≡ change_share_limits node kind share }
{
    let node_fits = numbers::within(node, 0, Table::LAST_NODE);
    let kind_fits = numbers::within(kind, Table::FIXED, Table::STATED);
    let most = Table::share_limit(numbers::natural(kind));
    let share_fits = numbers::within(share, 1, most);
    node_fits & kind_fits & share_fits
}

// Whether the fixed shares beside node k would be above 10,000.
// Kept: the new form is no plainer: this and the next go by sums and definitions of their own.
fn shares_above(ordered: Ordered<'_>, k: usize, kind: u64, share: u64) -> bool
    requires { (k < nodes) × (there (tree_of ordered.table.now) k ≡ true) × (k ≡ root → ⊥) × (share ≤ greatest_rate) }
    ensures { result ≡ shares_above (reshared ordered.entry.table.now k (pos kind) (pos share)) ((tree_of ordered.entry.table.now).parent k) }
{
    let table = ordered.table;
    let c = Table::natural(table, k, Table::PARENT) as usize;
    let old = sums::kind_share(table, Table::FIXED, k);
    sums::shares_above(table, c, old, kind, share)
}

// Whether node k would be stated elsewhere than under the root, or the stated rates would be above the disk's.
fn stated_wrong(ordered: Ordered<'_>, k: usize, kind: u64, share: u64) -> bool
    requires { (k < nodes) × (there (tree_of ordered.table.now) k ≡ true) × (k ≡ root → ⊥) × (share ≤ greatest_rate) }
    ensures { result ≡ stated_wrong (reshared ordered.entry.table.now k (pos kind) (pos share)) }
{
    let table = ordered.table;
    let c = Table::natural(table, k, Table::PARENT) as usize;
    let old = sums::kind_share(table, Table::STATED, k);
    sums::stated_wrong(table, c, old, kind, share)
}

// The first cause in the tree that turns change share of node k back.
fn tree_refusal(ordered: Ordered<'_>, k: usize, kind: u64, share: u64) -> Result<(), Refusal>
    requires { change_share_limits (pos k) (pos kind) (pos share) ≡ true }
    ensures first { number_in result ≡ change_share_refusal ordered.entry.table.now (pos k) (pos kind) (pos share) }
{
    if !table::tree::there(ordered.table, k) {
        return Err(Refusal::NotThere);
    }
    if k == 0 {
        return Err(Refusal::WrongNode);
    }
    if shares_above(ordered, k, kind, share) {
        return Err(Refusal::SharesAbove);
    }
    if stated_wrong(ordered, k, kind, share) {
        return Err(Refusal::StatedWrong);
    }
    Ok(())
}

// The first cause that turns change share back.
fn change_share_refusal(
    table: &AccountTable,
    node: i64,
    kind: i64,
    share: i64,
) -> Result<(), Refusal>
    ensures first { number_in result ≡ change_share_refusal table.now node kind share }
{
    let ordered = order::judge(table)?;
    if !change_share_limits(node, kind, share) {
        return Err(Refusal::OutsideLimits);
    }
    tree_refusal(
        ordered,
        numbers::natural(node) as usize,
        numbers::natural(kind),
        numbers::natural(share),
    )
}

// A node's kind and share.
fn write_share(table: &mut AccountTable, k: usize, kind: i64, share: i64)
    requires { k < nodes }
    ensures { table.new ≡ reshared table.old k kind share }
{
    Table::put(table, k, Table::KIND, kind);
    Table::put(table, k, Table::SHARE, share);
}

// Change share. Document 01, "Calls".
pub fn change_share(table: &mut [i64], node: i64, kind: i64, share: i64) -> Result<i64, Refusal>
    ensures answer { told result ≡ change_share_answer table.old node kind share }
    ensures table { table.new ≡ change_share_table table.old node kind share }
{
    let Some(table) = table.as_mut_array() else {
        return Err(Refusal::NotInOrder);
    };
    change_share_refusal(table, node, kind, share)?;
    let k = numbers::natural(node) as usize;
    let parent = Table::natural(table, k, Table::PARENT) as usize;
    write_share(table, k, kind, share);
    renewing::renew_below(table, parent);
    Ok(0)
}
