// Tests of places by themselves: numbers within limits, numbers that are zero, the header, the root and a node's own record.
#![tactic(auto)]

ghost use Rattle.std.specs.Prelude.{◌≡◌, ◌&&◌, ◌+◌, ◌<◌, ◌≤◌, ◌^◌, length, pos};
ghost use Rattle.numbers.specs.Whole.{minus, same_ℤ, within_ℤ};
ghost use Rattle.definitions.specs.Limits.{record_length, nodes, most_waiting};
ghost use Rattle.definitions.specs.Places.{place, waiting};
ghost use Rattle.definitions.specs.Order.{is_zero, header_in_order, root_in_order, limits_kept, spare_in_order};
ghost use Rattle.places.specs.Zeros.{zeros};

use table::{AccountTable, Table, queue};

// Zero just where both are.
fn either(a: i64, b: i64) -> i64
    ensures { is_zero result ≡ (is_zero a && is_zero b) }
{
    a | b
}

// Whether n numbers from the first on are zero.
pub fn zeros(table: &[i64], first: usize, n: usize) -> bool
    requires { first + n ≤ length table.now }
    ensures { result ≡ zeros table.now first n }
{
    let mut bits: i64 = 0;
    for z in &table[first..first + n] {
        bits = either(bits, *z);
    }
    numbers::equal(bits, 0)
}

// Whether place p of node k lies between two numbers, both included.
pub fn place_within(table: &AccountTable, k: usize, p: usize, low: u64, high: u64) -> bool
    requires { (k < nodes) × (p < record_length) }
    ensures { result ≡ within_ℤ low high (place table.now k p) }
{
    numbers::within(Table::get(table, k, p), low, high)
}

// Whether n stands at place p of node k.
fn place_is(table: &AccountTable, k: usize, p: usize, n: u64) -> bool
    requires { (k < nodes) × (p < record_length) × (n < 2 ^ 63) }
    ensures { result ≡ same_ℤ (place table.now k p) (pos n) }
{
    numbers::equal(Table::get(table, k, p), numbers::whole(n))
}

// The negative part of what stands at place p of node k.
pub fn negative(table: &AccountTable, k: usize, p: usize) -> u64
    requires { (k < nodes) × (p < record_length) }
    ensures { result ≡ minus (place table.now k p) }
{
    numbers::negative(Table::get(table, k, p))
}

// Whether the header is in order.
pub fn header_in_order(table: &AccountTable) -> bool
    ensures { result ≡ header_in_order table.now }
{
    let count = numbers::within(Table::heading(table, 0), 0, Table::GREATEST_COUNT);
    let others = zeros(table, 1, Table::HEADER - 1);
    count & others
}

// Whether the root is as it must be.
pub fn root_in_order(table: &AccountTable) -> bool
    ensures { result ≡ root_in_order table.now }
{
    let sort = place_is(table, 0, Table::SORT, Table::CLASS);
    let parent = place_is(table, 0, Table::PARENT, 0);
    let level = place_is(table, 0, Table::LEVEL, 0);
    let kind = place_is(table, 0, Table::KIND, Table::FIXED);
    let share = place_is(table, 0, Table::SHARE, Table::WHOLE_SHARE);
    let rate = place_within(table, 0, Table::RATE, 1, Table::GREATEST_RATE);
    sort & parent & level & kind & share & rate
}

// Whether the places of node k keep their limits.
pub fn limits_kept(table: &AccountTable, k: usize) -> bool
    requires { k < nodes }
    ensures { result ≡ limits_kept table.now k }
{
    let sort = place_within(table, k, Table::SORT, Table::CLASS, Table::CLIENT);
    let parent = place_within(table, k, Table::PARENT, 0, Table::LAST_NODE);
    let level = place_within(table, k, Table::LEVEL, 0, Table::LAST_LEVEL);
    let kind = place_within(table, k, Table::KIND, Table::FIXED, Table::STATED);
    let most = Table::share_limit(Table::natural(table, k, Table::KIND));
    let share = place_within(table, k, Table::SHARE, 1, most);
    let depth = place_within(table, k, Table::DEPTH, 1, Table::GREATEST_DEPTH);
    let waiting = place_within(table, k, Table::WAITING, 0, Table::MOST_WAITING);
    let last = Table::port_limit(Table::natural(table, k, Table::SORT));
    let port = place_within(table, k, Table::PORT, 0, last);
    sort & parent & level & kind & share & depth & waiting & port
}

// Whether the places of node k that hold nothing are zero. Most queues are empty, and one test of a fixed length takes less
// time.
pub fn spare_in_order(table: &AccountTable, k: usize) -> bool
    requires { (k < nodes) × (waiting table.now k ≤ most_waiting) }
    ensures { result ≡ spare_in_order table.now k }
{
    let first = Table::HEADER + Table::RECORD * k;
    let held = Table::REQUEST * queue::waiting(table, k);
    if held == 0 {
        return zeros(table, first + Table::SPARE, Table::RECORD - Table::SPARE);
    }
    let spare = zeros(table, first + Table::SPARE, Table::SPARE_LENGTH);
    let queue = zeros(
        table,
        first + Table::QUEUE + held,
        Table::QUEUE_LENGTH - held,
    );
    spare & queue
}
