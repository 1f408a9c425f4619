// One dispatch: the entry is written to the list of the client's port, the supplier charged and the request taken out.
#![tactic(auto)]

ghost use Rattle.std.specs.Prelude.{◌≡◌, ◌+◌, ◌*◌, ◌<◌, ◌≤◌, length};
ghost use Rattle.definitions.specs.Limits.{nodes, entry_length, first_port, second_port};
ghost use Rattle.definitions.specs.Places.{waiting, port};
ghost use Rattle.ticklaws.specs.Ports.{gets};
ghost use Rattle.balances.specs.Within.{Within};
ghost use Rattle.dispatch.specs.Entries.{table_after, list_after};
ghost use Rattle.dispatch.specs.Lists.{SameLists};

pub mod entries;
mod queue;

use entries::{Entry, Lists};
use table::{AccountTable, Table};

// Dispatches the oldest request of client k with node s as supplier, as an entry behind those that the lists have.
#[tactic(auto, unfolding(definitions::specs::Places::waiting, definitions::specs::Places::port, definitions::specs::Places::tag, definitions::specs::Places::size, definitions::specs::Tick::dispatched, crate::specs::Entries::table_after, crate::specs::Entries::list_after))]
pub fn dispatch(table: &mut AccountTable, lists: &mut Lists, k: usize, s: usize)
    requires { Within table.old × (k < nodes) × (s < nodes) × (0 < waiting table.old k) × (entry_length * (lists.old.counts.first + gets first_port (port table.old k)) ≤ length lists.old.first.now) × (entry_length * (lists.old.counts.second + gets second_port (port table.old k)) ≤ length lists.old.second.now) }
    ensures table { table.new ≡ table_after table.old k s }
    ensures first { lists.new.first.now ≡ list_after first_port lists.old.first.now lists.old.counts.first table.old k s }
    ensures second { lists.new.second.now ≡ list_after second_port lists.old.second.now lists.old.counts.second table.old k s }
    ensures counts { (lists.new.counts.first ≡ lists.old.counts.first + gets first_port (port table.old k)) × (lists.new.counts.second ≡ lists.old.counts.second + gets second_port (port table.old k)) }
    ensures same { SameLists lists.old lists.new }
{
    let entry = Entry {
        client: k,
        tag: Table::get(table, k, Table::QUEUE + Table::TAG),
        size: Table::natural(table, k, Table::QUEUE + Table::SIZE),
        supplier: s,
    };
    let port = Table::natural(table, k, Table::PORT);
    lists.list_entry(port, entry);
    balances::charge(table, costs::grains(entry.size), s);
    queue::take_out(table, k);
}
