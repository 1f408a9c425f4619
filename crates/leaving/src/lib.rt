// Leave: a node goes, and its record is zero.
#![tactic(auto)]

ghost use Rattle.std.specs.Prelude.{◌≡◌, [], ◌∷◌, true, not, ◌||◌, ◌<◌, ltb, pos};
ghost use Rattle.std.specs.Int.Signed.{lt_z};
ghost use Rattle.numbers.specs.Whole.{within_ℤ};
ghost use Rattle.numbers.specs.Tests.{every};
ghost use Rattle.definitions.specs.Limits.{nodes, last_node};
ghost use Rattle.definitions.specs.Places.{balance, waiting};
ghost use Rattle.definitions.specs.Tree.{tree_of, is_class, childless};
ghost use Rattle.answers.specs.Answers.{number_in, told};
ghost use Rattle.definitions.specs.Calls.{cleared, leave_refusal, leave_table, leave_answer};

use answers::Refusal;
use order::Ordered;
use table::{AccountTable, Table};

// Whether node k has children or waiting requests.
#[tactic(auto, unfolding(definitions::specs::Places::waiting))]
fn is_busy(table: &AccountTable, k: usize) -> bool
    requires { k < nodes }
    ensures { result ≡ (not (childless (tree_of table.now) k) || ltb 0 (waiting table.now k)) }
{
    let has_children = !table::tree::childless(table, k);
    let has_requests = 0 < Table::natural(table, k, Table::WAITING);
    has_children | has_requests
}

// Whether node k is a class with a balance below 0.
fn in_debt(table: &AccountTable, k: usize) -> bool
    requires { k < nodes }
    ensures { result ≡ every (is_class (tree_of table.now) k ∷ lt_z (balance table.now k) (pos 0) ∷ []) }
{
    let class = table::tree::is_class(table, k);
    let below = 0 < numbers::negative(Table::get(table, k, Table::BALANCE));
    class & below
}

// The first cause in the tree that turns leave of node k back.
fn tree_refusal(ordered: Ordered<'_>, k: usize) -> Result<(), Refusal>
    requires { within_ℤ 0 last_node (pos k) ≡ true }
    ensures first { number_in result ≡ leave_refusal ordered.entry.table.now (pos k) }
{
    let table = ordered.table;
    if !table::tree::there(table, k) {
        return Err(Refusal::NotThere);
    }
    if k == 0 {
        return Err(Refusal::WrongNode);
    }
    if is_busy(table, k) {
        return Err(Refusal::NotEmpty);
    }
    if in_debt(table, k) {
        return Err(Refusal::InDebt);
    }
    Ok(())
}

// The first cause that turns leave back.
fn leave_refusal(table: &AccountTable, node: i64) -> Result<(), Refusal>
    ensures first { number_in result ≡ leave_refusal table.now node }
{
    let ordered = order::judge(table)?;
    if !numbers::within(node, 0, Table::LAST_NODE) {
        return Err(Refusal::OutsideLimits);
    }
    tree_refusal(ordered, numbers::natural(node) as usize)
}

// Zeroes a node's record.
#[tactic(auto, using(numbers::proofs::Steps::for_loop), unfolding(definitions::specs::Calls::cleared))]
fn clear_node(table: &mut AccountTable, k: usize)
    requires { k < nodes }
    ensures { table.new ≡ cleared table.old k }
{
    for p in 0..Table::RECORD {
        Table::put(table, k, p, 0);
    }
}

// Leave. Document 01, "Calls".
pub fn leave(table: &mut [i64], node: i64) -> Result<i64, Refusal>
    ensures answer { told result ≡ leave_answer table.old node }
    ensures table { table.new ≡ leave_table table.old node }
{
    let Some(table) = table.as_mut_array() else {
        return Err(Refusal::NotInOrder);
    };
    leave_refusal(table, node)?;
    let k = numbers::natural(node) as usize;
    let parent = Table::natural(table, k, Table::PARENT) as usize;
    clear_node(table, k);
    renewing::renew_below(table, parent);
    Ok(0)
}
