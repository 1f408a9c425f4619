// The oldest request leaves the waiting places.
ghost use Rattle.std.specs.Prelude.{◌≡◌, ◌<◌, ◌≤◌};
ghost use Rattle.definitions.specs.Limits.{nodes, most_waiting};
ghost use Rattle.definitions.specs.Places.{waiting};
ghost use Rattle.definitions.specs.Tick.{taken_out};
ghost use Rattle.dispatch.specs.Queue.{moved_up, last_cleared};

use table::{AccountTable, Table};

// The requests behind the oldest of client k move up.
fn move_up(table: &mut AccountTable, k: usize)
    requires { k < nodes }
    ensures { table.new ≡ moved_up table.old k }
{
    let oldest = Table::HEADER + Table::RECORD * k + Table::QUEUE;
    table.copy_within(
        oldest + Table::REQUEST..oldest + Table::QUEUE_LENGTH,
        oldest,
    );
}

// The last waiting place of client k is zeroed.
fn clear_last(table: &mut AccountTable, k: usize)
    requires { k < nodes }
    ensures { table.new ≡ last_cleared table.old k }
{
    let end = Table::HEADER + Table::RECORD * k + Table::QUEUE + Table::QUEUE_LENGTH;
    table[end - Table::REQUEST..end].fill(0);
}

// The oldest request of client k is taken out, and those behind it move up.
#[tactic(auto, unfolding(definitions::specs::Tick::taken_out, definitions::specs::Places::waiting, crate::specs::Queue::moved_up, crate::specs::Queue::last_cleared))]
pub fn take_out(table: &mut AccountTable, k: usize)
    requires { (k < nodes) × (0 < waiting table.old k) × (waiting table.old k ≤ most_waiting) }
    ensures { table.new ≡ taken_out table.old k }
{
    let waiting = Table::natural(table, k, Table::WAITING);
    move_up(table, k);
    clear_last(table, k);
    Table::put_natural(table, k, Table::WAITING, waiting - 1);
}
