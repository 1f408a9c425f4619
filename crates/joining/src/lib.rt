// Join: a class or a client under a class.
#![tactic(auto)]

ghost use Rattle.std.specs.Prelude.{◌≡◌};
ghost use Rattle.answers.specs.Answers.{told, number_in};
ghost use Rattle.definitions.specs.Calls.{join_table, join_answer};
ghost use Rattle.treelaws.specs.Joins.{refusal_of, joined_by};
ghost use Rattle.admission.specs.NewNodes.{asked, join_of, Writable};

use admission::NewNode;
use answers::Refusal;
use table::{AccountTable, Table};

// The first cause that turns join back.
// Kept: the C interface needs it: these seven numbers are the arguments of its call, here and at join.
fn join_refusal(
    table: &AccountTable,
    node: i64,
    parent: i64,
    sort: i64,
    kind: i64,
    share: i64,
    depth: i64,
    port: i64,
) -> Result<(), Refusal>
    ensures first { number_in result ≡ refusal_of table.now (asked node parent sort kind share depth port) }
{
    order::judge(table)?;
    if !admission::join_limits(node, parent, sort, kind, share, depth, port) {
        return Err(Refusal::OutsideLimits);
    }
    let new = admission::new_node(node, parent, sort, kind, share, depth, port);
    admission::tree_refusal(table, new)
}

// The record of a joining node, with balance 0.
fn write_node(table: &mut AccountTable, new: NewNode)
    requires { Writable table.old new }
    ensures { table.new ≡ joined_by table.old (join_of new) }
{
    let level = Table::natural(table, new.parent, Table::LEVEL) + 1;
    Table::put_natural(table, new.node, Table::BALANCE, 0);
    Table::put_natural(table, new.node, Table::SORT, new.sort);
    Table::put_natural(table, new.node, Table::PARENT, new.parent as u64);
    Table::put_natural(table, new.node, Table::LEVEL, level);
    Table::put_natural(table, new.node, Table::KIND, new.kind);
    Table::put_natural(table, new.node, Table::SHARE, new.share);
    Table::put_natural(table, new.node, Table::DEPTH, new.depth);
    Table::put_natural(table, new.node, Table::PORT, new.port);
}

// Join. Document 01, "Calls", and document 02, (g).
pub fn join(
    table: &mut [i64],
    node: i64,
    parent: i64,
    sort: i64,
    kind: i64,
    share: i64,
    depth: i64,
    port: i64,
) -> Result<i64, Refusal>
    ensures answer { told result ≡ join_answer table.old node parent sort kind share depth port }
    ensures table { table.new ≡ join_table table.old node parent sort kind share depth port }
{
    let Some(table) = table.as_mut_array() else {
        return Err(Refusal::NotInOrder);
    };
    join_refusal(table, node, parent, sort, kind, share, depth, port)?;
    let new = admission::new_node(node, parent, sort, kind, share, depth, port);
    write_node(table, new);
    renewing::renew_below(table, new.parent);
    Ok(0)
}
