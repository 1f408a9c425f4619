// Look: the rate, balance and waiting count of a node, and the grains of its rate that nobody gets.
#![tactic(auto)]

ghost use Rattle.std.specs.Prelude.{◌≡◌, ◌<◌};
ghost use Rattle.definitions.specs.Limits.{nodes};
ghost use Rattle.answers.specs.Answers.{number_in, told_seen};
ghost use Rattle.definitions.specs.Calls.{lost_grains, look_refusal, look_answer};

use answers::{Refusal, Seen};
use order::Ordered;
use sums::Summand;
use table::{Table, tree};

// The first cause that turns look at a table in order back.
fn look_refusal(ordered: Ordered<'_>, node: i64) -> Result<(), Refusal>
    ensures first { number_in result ≡ look_refusal ordered.entry.table.now node }
{
    if !numbers::within(node, 0, Table::LAST_NODE) {
        return Err(Refusal::OutsideLimits);
    }
    if !tree::there(ordered.table, numbers::natural(node) as usize) {
        return Err(Refusal::NotThere);
    }
    Ok(())
}

// The grains that nobody gets: a class's rate less the sum of its children's rates; for a client 0. Document 02, (b).
fn lost_grains(ordered: Ordered<'_>, k: usize) -> i64
    requires { k < nodes }
    ensures { result ≡ lost_grains ordered.entry.table.now k }
{
    let table = ordered.table;
    if !tree::is_class(table, k) {
        return 0;
    }
    let given = sums::sum_under(table, Summand::Rates, k);
    numbers::lowered(Table::get(table, k, Table::RATE), given)
}

// Look. Document 01, "Calls", and document 02, (b).
pub fn look(table: &[i64], node: i64) -> Result<Seen, Refusal>
    ensures { told_seen result ≡ look_answer table.now node }
{
    let Some(table) = table.as_array() else {
        return Err(Refusal::NotInOrder);
    };
    let ordered = order::judge(table)?;
    look_refusal(ordered, node)?;
    let k = numbers::natural(node) as usize;
    Ok(Seen {
        rate: Table::get(table, k, Table::RATE),
        balance: Table::get(table, k, Table::BALANCE),
        waiting: Table::get(table, k, Table::WAITING),
        lost: lost_grains(ordered, k),
    })
}
