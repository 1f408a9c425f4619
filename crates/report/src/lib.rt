// The text that is printed for a plan. Document 01, "Same tree, and the plan file". A function `put_..` puts bytes behind those of a
// text.
#![tactic(auto)]

ghost use Rattle.std.specs.Prelude.{◌≡◌, ◌+◌, ◌*◌, ◌<◌, ◌≤◌, length};
ghost use Rattle.io.specs.Counts.{IsPrefixLen};
ghost use Rattle.definitions.specs.Limits.{nodes};
ghost use Rattle.planformat.specs.Written.{written};
ghost use Rattle.text.specs.Appended.{Appended, SameBuffer};
ghost use Rattle.report.specs.Text.{longest_sort, longest_line, sort_text, node_line, line, lines_of, report_of};

use table::{AccountTable, Table, tree};
use text::LentText;

// What the text's buffer holds.
pub const TEXT_LENGTH: usize = 4096;

// The word of a sort.
#[tactic(auto, unfolding(crate::specs::Text::sort_text, text::specs::Text::ascii))]
fn put_sort(text: &mut LentText, class: bool)
    requires { text.old.len + longest_sort ≤ length text.old.bytes.now }
    ensures put { Appended text.old.bytes.now text.old.len (sort_text class) text.new.bytes.now text.new.len }
    ensures same { SameBuffer text.old text.new }
{
    if class {
        text.put_text(b" class ");
    } else {
        text.put_text(b" client ");
    }
}

// The line of a node: node, sort, rate.
fn put_node(text: &mut LentText, node: u64, class: bool, rate: u64)
    requires { text.old.len + longest_line ≤ length text.old.bytes.now }
    ensures put { Appended text.old.bytes.now text.old.len (node_line node class rate) text.new.bytes.now text.new.len }
    ensures same { SameBuffer text.old text.new }
{
    text.put_decimal(node);
    put_sort(text, class);
    text.put_decimal(rate);
    text.put_text(b"\n");
}

// The line of node k of a table where it is there, else nothing.
fn put_line(text: &mut LentText, table: &AccountTable, k: usize)
    requires { (text.old.len + longest_line ≤ length text.old.bytes.now) × (k < nodes) }
    ensures put { Appended text.old.bytes.now text.old.len (line table.now k) text.new.bytes.now text.new.len }
    ensures same { SameBuffer text.old text.new }
{
    if !tree::there(table, k) {
        return;
    }
    let class = tree::is_class(table, k);
    let rate = Table::natural(table, k, Table::RATE);
    put_node(text, k as u64, class, rate);
}

// One line for each node in rising number.
#[tactic(auto, unfolding(crate::specs::Text::lines_of))]
fn put_lines(text: &mut LentText, table: &AccountTable)
    requires { text.old.len + longest_line * nodes ≤ length text.old.bytes.now }
    ensures put { Appended text.old.bytes.now text.old.len (lines_of table.now) text.new.bytes.now text.new.len }
    ensures same { SameBuffer text.old text.new }
{
    for k in 0..Table::NODES {
        put_line(text, table, k);
    }
}

// The text of a plan.
fn put_report(text: &mut LentText, contents: &[u8])
    requires { text.old.len + longest_line * nodes ≤ length text.old.bytes.now }
    ensures put { Appended text.old.bytes.now text.old.len (report_of contents.now) text.new.bytes.now text.new.len }
    ensures same { SameBuffer text.old text.new }
{
    let mut table = [0i64; Table::LENGTH];
    match reading::read(&mut table, contents) {
        Ok(_) => put_lines(text, &table),
        Err(why) => {
            let number = u64::from(why);
            text.put_refused(number);
        }
    }
}

// Puts the text that is printed for a plan at the start of a buffer, touches nothing beyond it, and answers its length.
pub fn report(contents: &[u8], text: &mut [u8; TEXT_LENGTH]) -> usize
    ensures count { IsPrefixLen result text.new }
    ensures length { result ≡ length (report_of contents.now) }
    ensures text { text.new ≡ written text.old 0 (report_of contents.now) }
{
    let mut text = LentText::new(text);
    put_report(&mut text, contents);
    text.len
}
