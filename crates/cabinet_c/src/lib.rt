// The functions of `cabinet` as a static library for hosts in C.
// Kept: the C interface needs it: an archive exports the functions of its own crate only.
#![tactic(auto)]

ghost use Rattle.std.specs.Prelude.{◌≡◌};
ghost use Rattle.definitions.specs.Calls.{open_answer, open_table, join_answer, join_table, leave_answer, leave_table, change_share_answer, change_share_table, change_rate_answer, change_rate_table, request_answer, request_table, look_answer, same_answer};
ghost use Rattle.definitions.specs.Tick.{tick_answer, tick_table, tick_first, tick_second};
ghost use Rattle.planlaws.specs.Reading.{plan_answer, plan_table};
ghost use Rattle.planlaws.specs.Writing.{write_answer, write_buffer};
ghost use Rattle.hourlaws.specs.SetMinute.{set_minute_answer, set_minute_table};
ghost use Rattle.cabinet.specs.Exported.{exported, exported_bare, shown};

use table::Table;

// Open (rate, root depth).
#[unsafe(no_mangle)]
pub extern "C" fn hds_open(table: &mut [i64], rate: i64, depth: i64) -> i64
    ensures answer { result ≡ exported (open_answer table.old rate depth) }
    ensures table { table.new ≡ open_table table.old rate depth }
{
    cabinet::hds_open(table, rate, depth)
}

// Join (node, parent, sort, kind, share, depth, port).
#[unsafe(no_mangle)]
pub extern "C" fn hds_join(
    table: &mut [i64],
    node: i64,
    parent: i64,
    sort: i64,
    kind: i64,
    share: i64,
    depth: i64,
    port: i64,
) -> i64
    ensures answer { result ≡ exported (join_answer table.old node parent sort kind share depth port) }
    ensures table { table.new ≡ join_table table.old node parent sort kind share depth port }
{
    cabinet::hds_join(table, node, parent, sort, kind, share, depth, port)
}

// Leave (node).
#[unsafe(no_mangle)]
pub extern "C" fn hds_leave(table: &mut [i64], node: i64) -> i64
    ensures answer { result ≡ exported (leave_answer table.old node) }
    ensures table { table.new ≡ leave_table table.old node }
{
    cabinet::hds_leave(table, node)
}

// Change share (node, kind, share).
#[unsafe(no_mangle)]
pub extern "C" fn hds_change_share(table: &mut [i64], node: i64, kind: i64, share: i64) -> i64
    ensures answer { result ≡ exported (change_share_answer table.old node kind share) }
    ensures table { table.new ≡ change_share_table table.old node kind share }
{
    cabinet::hds_change_share(table, node, kind, share)
}

// Change rate (rate).
#[unsafe(no_mangle)]
pub extern "C" fn hds_change_rate(table: &mut [i64], rate: i64) -> i64
    ensures answer { result ≡ exported (change_rate_answer table.old rate) }
    ensures table { table.new ≡ change_rate_table table.old rate }
{
    cabinet::hds_change_rate(table, rate)
}

// Request (client, tag, size): the arrival number.
#[unsafe(no_mangle)]
pub extern "C" fn hds_request(table: &mut [i64], client: i64, tag: i64, size: i64) -> i64
    ensures answer { result ≡ exported (request_answer table.old client tag size) }
    ensures table { table.new ≡ request_table table.old client tag size }
{
    cabinet::hds_request(table, client, tag, size)
}

// Tick: 0, the dispatches of each port on its list, and in counts how many they are.
#[unsafe(no_mangle)]
pub extern "C" fn hds_tick(
    table: &mut [i64],
    first: &mut [i64],
    second: &mut [i64],
    counts: &mut [i64; Table::PORTS],
) -> i64
    ensures answer { result ≡ exported_bare (tick_answer table.old first.old second.old) }
    ensures table { table.new ≡ tick_table table.old first.old second.old }
    ensures first { first.new ≡ tick_first table.old first.old second.old }
    ensures second { second.new ≡ tick_second table.old first.old second.old }
    ensures counts { counts.new ≡ shown (tick_answer table.old first.old second.old) counts.old }
{
    cabinet::hds_tick(table, first, second, counts)
}

// Look (node): 0, and in seen the rate, balance, waiting count and lost grains.
#[unsafe(no_mangle)]
pub extern "C" fn hds_look(table: &[i64], node: i64, seen: &mut [i64; Table::SEEN]) -> i64
    ensures answer { result ≡ exported_bare (look_answer table.now node) }
    ensures seen { seen.new ≡ shown (look_answer table.now node) seen.old }
{
    cabinet::hds_look(table, node, seen)
}

// Same (two tables): 1 for yes, 0 for no.
#[unsafe(no_mangle)]
pub extern "C" fn hds_same(first: &[i64], second: &[i64]) -> i64
    ensures { result ≡ exported (same_answer first.now second.now) }
{
    cabinet::hds_same(first, second)
}

// Reads a plan into a table: its edition, 1 or 2.
#[unsafe(no_mangle)]
pub extern "C" fn hds_plan_read(table: &mut [i64], contents: &[u8]) -> i64
    ensures answer { result ≡ exported (plan_answer table.old contents.now) }
    ensures table { table.new ≡ plan_table table.old contents.now }
{
    cabinet::hds_plan_read(table, contents)
}

// Writes the plan of a table into a buffer, in edition 1 or 2: its length.
#[unsafe(no_mangle)]
pub extern "C" fn hds_plan_write(table: &[i64], edition: i64, buffer: &mut [u8]) -> i64
    ensures answer { result ≡ exported (write_answer table.now edition buffer.old) }
    ensures buffer { buffer.new ≡ write_buffer table.now edition buffer.old }
{
    cabinet::hds_plan_write(table, edition, buffer)
}

// Gives every node its kind and share at a minute of the week: 0.
#[unsafe(no_mangle)]
pub extern "C" fn hds_set_minute(
    table: &mut [i64],
    plan: &[u8],
    windows: &[i64],
    minute: i64,
) -> i64
    ensures answer { result ≡ exported (set_minute_answer table.old plan.now windows.now minute) }
    ensures table { table.new ≡ set_minute_table table.old plan.now windows.now minute }
{
    cabinet::hds_set_minute(table, plan, windows, minute)
}
