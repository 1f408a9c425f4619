// The lines of one tick of a load. Document 02, (d). A function `put_..` puts bytes behind those of a text.
#![tactic(auto)]

ghost use Rattle.std.specs.Prelude.{◌≡◌, ◌+◌, ◌*◌, ◌<◌, ◌≤◌, length, get_or, pos};
ghost use Rattle.definitions.specs.Limits.{entry_length};
ghost use Rattle.definitions.specs.Tick.{ticked};
ghost use Rattle.planformat.specs.Bytes.{bytes_below};
ghost use Rattle.text.specs.Appended.{Appended, SameBuffer};
ghost use Rattle.loadformat.specs.Text.{number_text, dispatch_line, tick_lines};
ghost use Rattle.loadformat.specs.Parts.{most_dispatches, longest_number, longest_line, longest_tick, Loaded};

use table::{AccountTable, Table};
use text::LentText;

// Number p of dispatch entry i of a list.
fn entry_number(list: &[i64], i: usize, p: usize) -> i64
    requires { (p < entry_length) × (entry_length * i + entry_length ≤ length list.now) }
    ensures { result ≡ get_or list.now (entry_length * i + p) (pos 0) }
{
    list[Table::ENTRY * i + p]
}

// The same behind a space.
fn put_number(text: &mut LentText, list: &[i64], i: usize, p: usize)
    requires { (text.old.len + longest_number ≤ length text.old.bytes.now) × (p < entry_length) × (entry_length * i + entry_length ≤ length list.now) }
    ensures put { Appended text.old.bytes.now text.old.len (number_text list.now i p) text.new.bytes.now text.new.len }
    ensures same { SameBuffer text.old text.new }
{
    text.put_text(b" ");
    text.put_decimal(numbers::natural(entry_number(list, i, p)));
}

// The numbers of dispatch entry i.
fn put_entry(text: &mut LentText, list: &[i64], i: usize)
    requires { (text.old.len + longest_number * entry_length ≤ length text.old.bytes.now) × (entry_length * i + entry_length ≤ length list.now) }
    ensures put { Appended text.old.bytes.now text.old.len (bytes_below entry_length (number_text list.now i)) text.new.bytes.now text.new.len }
    ensures same { SameBuffer text.old text.new }
{
    for p in 0..Table::ENTRY {
        put_number(text, list, i, p);
    }
}

// The line of dispatch entry i.
fn put_dispatch(text: &mut LentText, tick: u64, list: &[i64], i: usize)
    requires { (text.old.len + longest_line ≤ length text.old.bytes.now) × (entry_length * i + entry_length ≤ length list.now) }
    ensures put { Appended text.old.bytes.now text.old.len (dispatch_line tick list.now i) text.new.bytes.now text.new.len }
    ensures same { SameBuffer text.old text.new }
{
    text.put_decimal(tick);
    put_entry(text, list, i);
    text.put_text(b"\n");
}

// The lines of the first dispatch entries of a list.
fn put_dispatches(text: &mut LentText, tick: u64, list: &[i64], count: usize)
    requires { (text.old.len + longest_line * count ≤ length text.old.bytes.now) × (entry_length * count ≤ length list.now) }
    ensures put { Appended text.old.bytes.now text.old.len (bytes_below count (dispatch_line tick list.now)) text.new.bytes.now text.new.len }
    ensures same { SameBuffer text.old text.new }
{
    for i in 0..count {
        put_dispatch(text, tick, list, i);
    }
}

// The lines of a tick, which is made. All clients are on the first port, and the second list is empty.
pub fn put_tick(text: &mut LentText, table: &mut AccountTable, list: &mut [i64], tick: u64)
    requires { (text.old.len + longest_tick ≤ length text.old.bytes.now) × Loaded table.old × (entry_length * most_dispatches ≤ length list.old) }
    ensures lines { Appended text.old.bytes.now text.old.len (tick_lines tick (ticked table.old).entries) text.new.bytes.now text.new.len }
    ensures same { SameBuffer text.old text.new }
    ensures table { table.new ≡ (ticked table.old).table }
{
    let counts = steps::run(table, list, &mut []);
    put_dispatches(text, tick, list, counts.first);
}
