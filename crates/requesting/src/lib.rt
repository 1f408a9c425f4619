// Request: one more waiting request at a client.
#![tactic(auto)]

ghost use Rattle.std.specs.Prelude.{◌≡◌, true, ◌+◌, ◌<◌, ◌^◌, pos};
ghost use Rattle.definitions.specs.Limits.{nodes, most_waiting, tag_at, size_at, arrival_at};
ghost use Rattle.definitions.specs.Places.{put, queue_place, count, waiting};
ghost use Rattle.definitions.specs.Order.{in_order};
ghost use Rattle.answers.specs.Answers.{number_in, told};
ghost use Rattle.definitions.specs.Calls.{request_limits, requested, request_refusal, request_table, request_answer};

use answers::Refusal;
use order::Ordered;
use table::{AccountTable, Table};

// The i-th waiting place of node k.
fn write_place(table: &mut AccountTable, k: usize, i: usize, tag: i64, size: i64, number: u64)
    requires { (k < nodes) × (i < most_waiting) × (number < 2 ^ 63) }
    ensures { table.new ≡ put (put (put table.old k (queue_place i + tag_at) tag) k (queue_place i + size_at) size) k (queue_place i + arrival_at) (pos number) }
{
    let place = Table::QUEUE + Table::REQUEST * i;
    Table::put(table, k, place + Table::TAG, tag);
    Table::put(table, k, place + Table::SIZE, size);
    Table::put_natural(table, k, place + Table::ARRIVAL, number);
}

// A request behind those that wait at node k; its arrival number is the new count.
#[tactic(auto, unfolding(definitions::specs::Places::waiting, definitions::specs::Places::count))]
fn write_request(table: &mut AccountTable, k: usize, tag: i64, size: i64)
    requires { (k < nodes) × (waiting table.old k < most_waiting) × (count table.old + 1 < 2 ^ 63) }
    ensures { table.new ≡ requested table.old k tag size }
{
    let waiting = Table::natural(table, k, Table::WAITING);
    let number = Table::count(table) + 1;
    write_place(table, k, waiting as usize, tag, size, number);
    Table::put_natural(table, k, Table::WAITING, waiting + 1);
    Table::put_count(table, number);
}

fn request_limits(client: i64, size: i64) -> bool
    ensures { result ≡ request_limits client size }
{
    let client_fits = numbers::within(client, 0, Table::LAST_NODE);
    let size_fits = numbers::at_most(1, size);
    client_fits & size_fits
}

// The first cause in the tree that turns a request at node k back. Tags are not judged.
fn tree_refusal(ordered: Ordered<'_>, k: usize, size: u64) -> Result<(), Refusal>
    requires { request_limits (pos k) (pos size) ≡ true }
    ensures first { number_in result ≡ request_refusal ordered.entry.table.now (pos k) (pos 0) (pos size) }
{
    let table = ordered.table;
    if !table::tree::there(table, k) {
        return Err(Refusal::NotThere);
    }
    if table::tree::is_class(table, k) {
        return Err(Refusal::WrongNode);
    }
    let depth = Table::natural(table, k, Table::DEPTH);
    if costs::above(size, depth) {
        return Err(Refusal::DepthAbove);
    }
    let full = Table::natural(table, k, Table::WAITING) == Table::MOST_WAITING;
    if full {
        return Err(Refusal::QueueFull);
    }
    if Table::count(table) == Table::GREATEST_COUNT {
        return Err(Refusal::CountAtEnd);
    }
    Ok(())
}

// A request at node k of a table that is known to be in order. Where it is refused, nothing is written.
// Kept: an `order::Ordered` is no plainer here, since a writer would end the type's promise at its first write.
pub fn request_in_order(table: &mut AccountTable, k: usize, tag: i64, size: u64)
    requires { (in_order table.old ≡ true) × (request_limits (pos k) (pos size) ≡ true) × (size < 2 ^ 63) }
    ensures { table.new ≡ request_table table.old (pos k) tag (pos size) }
{
    let accepted = tree_refusal(Ordered { table }, k, size).is_ok();
    if accepted {
        write_request(table, k, tag, numbers::whole(size));
    }
}

// The first cause that turns a request back.
fn request_refusal(table: &AccountTable, client: i64, tag: i64, size: i64) -> Result<(), Refusal>
    ensures first { number_in result ≡ request_refusal table.now client tag size }
{
    let ordered = order::judge(table)?;
    if !request_limits(client, size) {
        return Err(Refusal::OutsideLimits);
    }
    tree_refusal(
        ordered,
        numbers::natural(client) as usize,
        numbers::natural(size),
    )
}

// Request. Document 01, "Calls".
pub fn request(table: &mut [i64], client: i64, tag: i64, size: i64) -> Result<i64, Refusal>
    ensures answer { told result ≡ request_answer table.old client tag size }
    ensures table { table.new ≡ request_table table.old client tag size }
{
    let Some(table) = table.as_mut_array() else {
        return Err(Refusal::NotInOrder);
    };
    request_refusal(table, client, tag, size)?;
    let arrival = Table::count(table) + 1;
    write_request(table, numbers::natural(client) as usize, tag, size);
    Ok(numbers::whole(arrival))
}
