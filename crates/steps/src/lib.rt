// The four steps of a tick.
#![tactic(auto)]

ghost use Rattle.std.specs.Prelude.{◌≡◌, true, ◌*◌, ◌<◌, ◌≤◌, length};
ghost use Rattle.definitions.specs.Limits.{nodes, entry_length, first_port, second_port};
ghost use Rattle.definitions.specs.Order.{in_order};
ghost use Rattle.definitions.specs.Tick.{ready, served_all, ticked, port_entries, listed, port_waiting};
ghost use Rattle.balances.specs.Within.{Within};
ghost use Rattle.dispatch.specs.Lists.{SameLists};
ghost use Rattle.steps.specs.Steps.{Serving, Lending, Room, Follows, serving, lending};

use dispatch::entries::Lists;
use table::{AccountTable, PortCounts, Table};

// Whether a request waits at client k that its own balance is enough for.
#[tactic(auto, using(crate::proofs::Serving::readiness))]
fn ready(table: &AccountTable, k: usize) -> bool
    requires { Within table.now × (k < nodes) }
    ensures { result ≡ ready table.now k }
{
    if Table::natural(table, k, Table::WAITING) == 0 {
        return false;
    }
    let amount = costs::grains(Table::natural(table, k, Table::QUEUE + Table::SIZE));
    suppliers::enough(table, amount, k)
}

// Step 2 for client k: while its oldest request is ready, it is dispatched with the client as supplier, as an entry behind those
// that the lists have.
fn serve(table: &mut AccountTable, lists: &mut Lists, k: usize)
    requires { Serving table.old × (k < nodes) × Room first_port table.old lists.old.first.now lists.old.counts.first × Room second_port table.old lists.old.second.now lists.old.counts.second }
    ensures again { Serving table.new × Room first_port table.new lists.new.first.now lists.new.counts.first × Room second_port table.new lists.new.second.now lists.new.counts.second }
    ensures follows { Follows (serving k) table.old lists.old.first.now lists.old.second.now lists.old.counts table.new lists.new.first.now lists.new.second.now lists.new.counts }
    ensures same { SameLists lists.old lists.new }
{
    while ready(table, k) {
        dispatch::dispatch(table, lists, k, k);
    }
}

// Step 2: clients in rising number, as entries behind those that the lists have.
#[tactic(auto, using(crate::proofs::Shows::following))]
fn serve_all(table: &mut AccountTable, lists: &mut Lists)
    requires { Serving table.old × Room first_port table.old lists.old.first.now lists.old.counts.first × Room second_port table.old lists.old.second.now lists.old.counts.second }
    ensures follows { Follows served_all table.old lists.old.first.now lists.old.second.now lists.old.counts table.new lists.new.first.now lists.new.second.now lists.new.counts }
    ensures same { SameLists lists.old lists.new }
{
    for k in 0..Table::NODES {
        serve(table, lists, k);
    }
}

// Step 4: again and again the request that goes next is dispatched from its supplier, as an entry behind those that the lists have,
// until no request has one.
fn lend(table: &mut AccountTable, lists: &mut Lists)
    requires { Lending table.old × Room first_port table.old lists.old.first.now lists.old.counts.first × Room second_port table.old lists.old.second.now lists.old.counts.second }
    ensures follows { Follows lending table.old lists.old.first.now lists.old.second.now lists.old.counts table.new lists.new.first.now lists.new.second.now lists.new.counts }
    ensures same { SameLists lists.old lists.new }
{
    while let Some(turn) = suppliers::next_client(table) {
        dispatch::dispatch(table, lists, turn.client, turn.supplier);
    }
}

// The four steps, on a table in order and lists that have room for all that wait at their ports. Returns how many requests were
// dispatched to each port.
// Kept: an `order::Ordered` is no plainer here, since a writer would end the type's promise at its first write.
pub fn run(table: &mut AccountTable, first: &mut [i64], second: &mut [i64]) -> PortCounts
    requires { (in_order table.old ≡ true) × (entry_length * port_waiting table.old first_port ≤ length first.old) × (entry_length * port_waiting table.old second_port ≤ length second.old) }
    ensures table { table.new ≡ (ticked table.old).table }
    ensures first { first.new ≡ listed (port_entries table.old first_port) first.old }
    ensures second { second.new ≡ listed (port_entries table.old second_port) second.old }
    ensures counts { (entry_length * result.first ≡ length (port_entries table.old first_port)) × (entry_length * result.second ≡ length (port_entries table.old second_port)) }
{
    let mut lists = Lists {
        first,
        second,
        counts: PortCounts {
            first: 0,
            second: 0,
        },
    };
    balances::grow(table);
    serve_all(table, &mut lists);
    balances::cut(table);
    lend(table, &mut lists);
    lists.counts
}
