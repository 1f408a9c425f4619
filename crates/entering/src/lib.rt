// The entries of a plan joined in turn, and whether they stand in order. Document 01, "Same tree, and the plan
// file", and document 02, (f) and (g).
#![tactic(auto)]

ghost use Rattle.std.specs.Prelude.{◌≡◌, ℕ, ◌≤◌, ◌<◌, IfOk};
ghost use Rattle.definitions.specs.Limits.{nodes, last_level};
ghost use Rattle.definitions.specs.Tree.{tree_of};
ghost use Rattle.answers.specs.Answers.{number_in};
ghost use Rattle.planformat.specs.Bytes.{byte_values, four_values};
ghost use Rattle.planformat.specs.Nodes.{share_in, held_by, entry_by};
ghost use Rattle.planformat.specs.Format.{plan_in};
ghost use Rattle.planlaws.specs.Reading.{entry_refusal, after_entry, after_entries, entries_refusal, standing, rising};

use answers::Refusal;
use layout::{Node, bodies};
use table::{AccountTable, Table};
use view::View;

// Joins a node, on the first port, and answers as join does.
fn join_node(table: &mut [i64], node: Node) -> Result<i64, Refusal>
    requires { (node.number < byte_values) × (node.parent < byte_values) × (share_in (held_by node.sort) < four_values) × (node.depth < four_values) }
    ensures number { number_in result ≡ entry_refusal table.old (entry_by node) }
    ensures table { table.new ≡ after_entry table.old (entry_by node) }
{
    let held = bodies::held_by(node.sort);
    accounts::join(
        table,
        numbers::whole(node.number),
        numbers::whole(node.parent),
        numbers::whole(bodies::sort_number(node.sort)),
        numbers::whole(bodies::share_kind_in(held)),
        numbers::whole(bodies::share_in(held)),
        numbers::whole(node.depth),
        numbers::whole(Table::FIRST_PORT),
    )
}

// Where the node of entry i stands, by level, then by number.
fn standing_of(table: &AccountTable, view: View, i: usize) -> u64
    requires { (i < view.count) × (((plan_in view.bytes.now).entry i).node < nodes) × ((tree_of table.now).level ((plan_in view.bytes.now).entry i).node ≤ last_level) }
    ensures { result ≡ standing (tree_of table.now) ((plan_in view.entry.bytes.now).entry i).node }
{
    let k = view.entry(i).number as usize;
    let level = Table::natural(table, k, Table::LEVEL);
    Table::NODES as u64 * level + k as u64
}

// Whether the entries stand by level, then by number.
#[tactic(auto, using(numbers::proofs::All::all_loop))]
pub fn rising(table: &AccountTable, view: View) -> bool
    requires { (i : ℕ) → i < view.count → (((plan_in view.bytes.now).entry i).node < nodes) × ((tree_of table.now).level ((plan_in view.bytes.now).entry i).node ≤ last_level) }
    ensures { result ≡ rising (tree_of table.now) (plan_in view.entry.bytes.now) }
{
    let mut ok = true;
    for i in 0..view.count.saturating_sub(1) {
        let here = standing_of(table, view, i);
        ok = ok & (here < standing_of(table, view, i + 1));
    }
    ok
}

// Joins entry i.
fn join_entry(table: &mut [i64], view: View, i: usize) -> Result<i64, Refusal>
    requires { i < view.count }
    ensures number { number_in result ≡ entry_refusal table.old ((plan_in view.entry.bytes.now).entry i) }
    ensures table { table.new ≡ after_entry table.old ((plan_in view.entry.bytes.now).entry i) }
{
    join_node(table, view.node(i))
}

// Joins the entries in turn, up to the first that is refused.
pub fn join_entries(table: &mut [i64], view: View) -> Result<(), Refusal>
    ensures number { number_in result ≡ entries_refusal table.old (plan_in view.entry.bytes.now) view.entry.count }
    ensures table { IfOk result (λ _. table.new ≡ after_entries table.old (plan_in view.entry.bytes.now) view.entry.count) }
{
    for i in 0..view.count {
        join_entry(table, view, i)?;
    }
    Ok(())
}
