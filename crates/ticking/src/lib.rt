// Tick: balances grow, and waiting requests go.
#![tactic(auto)]

ghost use Rattle.std.specs.Prelude.{◌≡◌};
ghost use Rattle.definitions.specs.Limits.{first_port, second_port};
ghost use Rattle.answers.specs.Answers.{number_in, told_ticked};
ghost use Rattle.definitions.specs.Tick.{port_waiting, tick_refusal, tick_table, tick_first, tick_second, tick_answer};

use answers::{Dispatched, Refusal};
use order::Ordered;
use table::{AccountTable, PortCounts, Table};

// The waiting requests of each port's clients. A port is 0 or 1, so a node's requests times its port are those of the second.
#[tactic(auto, using(numbers::proofs::Sums::sum_loop))]
fn waiting_by_port(ordered: Ordered<'_>) -> PortCounts
    ensures { (result.first ≡ port_waiting ordered.entry.table.now first_port) × (result.second ≡ port_waiting ordered.entry.table.now second_port) }
{
    let table = ordered.table;
    let mut all: u64 = 0;
    let mut second: u64 = 0;
    for k in 0..Table::NODES {
        let waiting = Table::unsigned(table, k, Table::WAITING);
        all += waiting;
        second += waiting * Table::unsigned(table, k, Table::PORT);
    }
    PortCounts {
        first: (all - second) as usize,
        second: second as usize,
    }
}

// The first cause that turns a tick back.
fn tick_refusal(table: &AccountTable, first: &[i64], second: &[i64]) -> Result<(), Refusal>
    ensures first { number_in result ≡ tick_refusal table.now first.now second.now }
{
    let waiting = waiting_by_port(order::judge(table)?);
    if first.len() < Table::ENTRY * waiting.first {
        return Err(Refusal::BufferShort);
    }
    if second.len() < Table::ENTRY * waiting.second {
        return Err(Refusal::BufferShort);
    }
    Ok(())
}

// Tick. Document 01, "Calls", and document 02, (g).
pub fn tick(table: &mut [i64], first: &mut [i64], second: &mut [i64]) -> Result<Dispatched, Refusal>
    ensures answer { told_ticked result ≡ tick_answer table.old first.old second.old }
    ensures table { table.new ≡ tick_table table.old first.old second.old }
    ensures first { first.new ≡ tick_first table.old first.old second.old }
    ensures second { second.new ≡ tick_second table.old first.old second.old }
{
    let Some(table) = table.as_mut_array() else {
        return Err(Refusal::NotInOrder);
    };
    tick_refusal(table, first, second)?;
    let counts = steps::run(table, first, second);
    Ok(Dispatched {
        first: numbers::whole(counts.first as u64),
        second: numbers::whole(counts.second as u64),
    })
}
