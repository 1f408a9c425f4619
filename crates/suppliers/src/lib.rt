// Who supplies a request, and which request goes next.
#![tactic(auto)]

ghost use Rattle.std.specs.Prelude.{◌≡◌, ◌<◌, ◌^◌};
ghost use Rattle.definitions.specs.Limits.{nodes};
ghost use Rattle.definitions.specs.Tick.{enough, supply};
ghost use Rattle.balances.specs.Within.{Within};
ghost use Rattle.suppliers.specs.Next.{next_in, before_best};

use definitions::Supplier;
use table::{AccountTable, Table};

// What step 4 dispatches next: a client's oldest request, from its supplier.
#[derive(Clone, Copy)]
pub struct Turn {
    pub client: usize,
    pub supplier: usize,
}

// The best request so far: its client and supplier, how many steps the supplier is above the client, and the arrival number.
#[derive(Clone, Copy)]
struct Best {
    turn: Turn,
    steps: usize,
    arrival: u64,
}

// Whether node k has enough balance for an amount.
#[tactic(auto, unfolding(definitions::specs::Tick::enough, definitions::specs::Places::balance))]
pub fn enough(table: &AccountTable, amount: u64, k: usize) -> bool
    requires { (k < nodes) × (amount < 2 ^ 63) }
    ensures { result ≡ enough table.now amount k }
{
    let least = numbers::whole(amount);
    let balance = Table::get(table, k, Table::BALANCE);
    numbers::at_most(least, balance)
}

// The supplier of client k's oldest request, the first node with enough balance on the way from the client up to the root, and
// how many steps it is above the client; or none where no node has enough.
#[tactic(auto, using(crate::proofs::Way::way), unfolding(definitions::specs::Tree::tree_of, definitions::specs::Places::size, definitions::specs::Tick::supply))]
fn supplier_of(table: &AccountTable, k: usize) -> Option<Supplier>
    requires { Within table.now × (k < nodes) }
    ensures { result ≡ supply table.now k }
{
    let amount = costs::grains(Table::natural(table, k, Table::QUEUE + Table::SIZE));
    let mut level = Table::natural(table, k, Table::LEVEL);
    let mut node = k;
    let mut steps: usize = 0;
    // Kept: a named form of document 01 needs it, a loop that climbs the levels and yields the supplier by break.
    loop {
        if enough(table, amount, node) {
            break Some(Supplier { node, steps });
        }
        if level == 0 {
            break None;
        }
        node = Table::natural(table, node, Table::PARENT) as usize;
        level -= 1;
        steps += 1;
    }
}

// Whether a request with these steps and this arrival number is better than the best so far, or there is none.
#[tactic(auto, unfolding(crate::specs::Next::before_best, definitions::specs::Tick::better))]
fn goes_first(steps: usize, arrival: u64, best: Option<Best>) -> bool
    ensures { result ≡ before_best steps arrival best }
{
    best.is_none_or(|best| (steps, arrival) < (best.steps, best.arrival))
}

// The client whose oldest request goes next, with its supplier: of the requests that have a supplier, the one with the fewest
// steps, and among those the one with the lowest arrival number. A client with nothing waiting, with no supplier or with a
// request that is not better is skipped.
#[tactic(auto, using(crate::proofs::Choice::choosing), unfolding(definitions::specs::Places::waiting, definitions::specs::Places::arrival))]
pub fn next_client(table: &AccountTable) -> Option<Turn>
    requires { Within table.now }
    ensures { result ≡ next_in table.now }
{
    let mut best: Option<Best> = None;
    // Kept: a named form of document 01 needs it, a search that skips a client by a label.
    'clients: for k in 0..Table::NODES {
        if Table::natural(table, k, Table::WAITING) == 0 {
            continue 'clients;
        }
        let Some(Supplier { node, steps }) = supplier_of(table, k) else {
            continue 'clients;
        };
        let arrival = Table::natural(table, k, Table::QUEUE + Table::ARRIVAL);
        if !goes_first(steps, arrival, best) {
            continue 'clients;
        }
        let turn = Turn {
            client: k,
            supplier: node,
        };
        best = Some(Best {
            turn,
            steps,
            arrival,
        });
    }
    best.map(|best| best.turn)
}
