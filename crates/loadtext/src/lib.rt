// The text of a load, in parts. Document 02, (d). A function `put_..` puts bytes into a text from the start on, or behind those of the
// part so far, and answers how far the load is then.
#![tactic(auto)]

ghost use Rattle.std.specs.Prelude.{◌≡◌, ◌+◌, ◌*◌, ◌^◌, ◌<◌, ◌≤◌, length};
ghost use Rattle.definitions.specs.Limits.{entry_length};
ghost use Rattle.text.specs.Appended.{Appended, SameBuffer};
ghost use Rattle.asking.specs.Asking.{clients, load_of};
ghost use Rattle.loadformat.specs.Text.{tick_lines, next_tick, after_tick};
ghost use Rattle.loadformat.specs.Parts.{most_dispatches, longest_tick, part_length, part_ticks, Loaded, GoesOn};

use loadformat::{PART_LENGTH, Progress};
use table::{AccountTable, Table};
use text::LentText;

// The most dispatches of a tick, and how long a number behind a space, a line and the lines of a tick can be.
const MOST_DISPATCHES: usize = Table::NODES * Table::MOST_WAITING as usize;

const LONGEST_NUMBER: usize = 1 + text::MOST_DIGITS;

const LONGEST_LINE: usize = text::MOST_DIGITS + LONGEST_NUMBER * Table::ENTRY + 1;

const LONGEST_TICK: usize = LONGEST_LINE * MOST_DISPATCHES;

// The last place of a part's buffer from which there is room for a tick, and the most ticks of a part.
const LAST_PLACE: usize = PART_LENGTH - LONGEST_TICK;

const PART_TICKS: u64 = 4096;

// One request, one tick and its lines, behind those of the part so far. The askers are the clients.
fn put_next(
    text: &mut LentText,
    table: &mut AccountTable,
    askers: &[u64],
    list: &mut [i64],
    progress: Progress,
) -> Progress
    requires { (text.old.len + longest_tick ≤ length text.old.bytes.now) × Loaded table.old × (askers.now ≡ clients table.old) × (entry_length * most_dispatches ≤ length list.old) × (progress.made < 2 ^ 32) }
    ensures lines { Appended text.old.bytes.now text.old.len (tick_lines (progress.made + 1) (next_tick (load_of table.old progress.state)).entries) text.new.bytes.now text.new.len }
    ensures same { SameBuffer text.old text.new }
    ensures load { load_of table.new result.state ≡ after_tick (load_of table.old progress.state) }
    ensures ticks { (result.made ≡ progress.made + 1) × (result.ticks ≡ progress.ticks) }
{
    let state = asking::ask(table, askers, progress.state);
    let made = progress.made + 1;
    loadlines::put_tick(text, table, list, made);
    Progress {
        state,
        made,
        ticks: progress.ticks,
    }
}

// The last tick that a part may have.
fn last_tick(progress: Progress) -> u64
    requires { progress.made < progress.ticks }
    ensures { (progress.made < result) × (result ≤ progress.ticks) × (result ≤ progress.made + part_ticks) }
{
    progress.ticks.min(progress.made + PART_TICKS)
}

// Whole ticks, one or more, while the buffer has room for one. The askers are the clients.
fn put_ticks(
    text: &mut LentText,
    table: &mut AccountTable,
    askers: &[u64],
    progress: Progress,
) -> Progress
    requires { (part_length ≤ length text.old.bytes.now) × Loaded table.old × (askers.now ≡ clients table.old) × (progress.made < progress.ticks) }
    ensures part { GoesOn text.old.bytes.now (load_of table.old progress.state) progress.made progress.ticks text.new.bytes.now (load_of table.new result.state) result.made text.new.len }
    ensures same { SameBuffer text.old text.new }
    ensures ticks { (progress.made < result.made) × (result.made ≤ progress.made + part_ticks) × (result.ticks ≡ progress.ticks) }
{
    let mut list = [0i64; Table::ENTRY * MOST_DISPATCHES];
    let last = last_tick(progress);
    let mut next = progress;
    text.clear();
    while next.made < last && text.len <= LAST_PLACE {
        next = put_next(text, table, askers, &mut list, next);
    }
    next
}

// Makes the next part of a load in a buffer, and answers how far the load is then.
pub fn go_on(text: &mut LentText, table: &mut AccountTable, progress: Progress) -> Progress
    requires { (part_length ≤ length text.old.bytes.now) × Loaded table.old × (progress.made < progress.ticks) }
    ensures part { GoesOn text.old.bytes.now (load_of table.old progress.state) progress.made progress.ticks text.new.bytes.now (load_of table.new result.state) result.made text.new.len }
    ensures same { SameBuffer text.old text.new }
    ensures ticks { (progress.made < result.made) × (result.made ≤ progress.made + part_ticks) × (result.ticks ≡ progress.ticks) }
{
    let mut nodes = [0u64; Table::NODES];
    let count = asking::list_clients(table, &mut nodes);
    put_ticks(text, table, &nodes[..count], progress)
}
