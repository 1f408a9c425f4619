// The requests of a load. Document 02, (d).
#![tactic(auto)]

ghost use Rattle.std.specs.Prelude.{◌≡◌, true, ◌≤◌, length, take};
ghost use Rattle.io.specs.Counts.{IsPrefixLen};
ghost use Rattle.definitions.specs.Limits.{nodes};
ghost use Rattle.definitions.specs.Order.{in_order};
ghost use Rattle.asking.specs.Asking.{clients, load_of, asked};

use table::{AccountTable, Table, tree};

// Puts the clients of a table by rising number at the start of a list, and answers how many there are.
// Kept: what may not change needs it: any list that is long enough is lent, and what stands in it afterwards is promised.
#[tactic(auto, using(crate::proofs::Listing::listing))]
pub fn list_clients(table: &AccountTable, list: &mut [u64]) -> usize
    requires { nodes ≤ length list.old }
    ensures count { IsPrefixLen result list.new }
    ensures clients { take result list.new ≡ clients table.now }
{
    let mut count = 0;
    for k in 0..Table::NODES {
        if tree::is_client(table, k) {
            list[count] = k as u64;
            count += 1;
        }
    }
    count
}

// Makes a load's next request, where its tree has clients, and answers the state of the draws after it. The table is known to be in
// order, and the askers are its clients.
// Kept: an `order::Ordered` is no plainer here, since a writer would end the type's promise at its first write.
pub fn ask(table: &mut AccountTable, askers: &[u64], state: u32) -> u32
    requires { (in_order table.old ≡ true) × (askers.now ≡ clients table.old) }
    ensures { load_of table.new result ≡ asked (load_of table.old state) }
{
    if askers.is_empty() {
        return state;
    }
    let first = draws::next_state(state);
    let second = draws::next_state(first);
    let third = draws::next_state(second);
    let client = askers[draws::upper(first) as usize % askers.len()];
    let depth = Table::natural(table, client as usize, Table::DEPTH);
    let size = draws::upper(second) % depth + 1;
    let tag = numbers::whole(draws::upper(third));
    requesting::request_in_order(table, client as usize, tag, size);
    third
}
