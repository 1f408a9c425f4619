// The entries of the dispatch lists.
ghost use Rattle.std.specs.Prelude.{◌≡◌, ◌+◌, ◌*◌, ◌<◌, ◌≤◌, ◌^◌, length, pos};
ghost use Rattle.definitions.specs.Limits.{nodes, entry_length, first_port, second_port};
ghost use Rattle.ticklaws.specs.Ports.{gets};
ghost use Rattle.dispatch.specs.Entries.{entered, entered_on};
ghost use Rattle.dispatch.specs.Lists.{SameLists};

use table::{PortCounts, Table};

// A dispatch: a client, the tag and size of its request, and the supplier.
#[derive(Clone, Copy)]
pub struct Entry {
    pub client: usize,
    pub tag: i64,
    pub size: u64,
    pub supplier: usize,
}

// The dispatch lists of the two ports, and how many entries they have.
// Kept: the C interface needs it: both lists are lent, and the counts are answered.
#[derive(Drop)]
pub struct Lists<'a> {
    pub first: &'a mut [i64],
    pub second: &'a mut [i64],
    pub counts: PortCounts,
}

// Writes an entry behind the n that the list has.
#[tactic(auto, unfolding(crate::specs::Entries::entered))]
fn write_entry(list: &mut [i64], n: usize, entry: Entry)
    requires { (entry_length * n + entry_length ≤ length list.old) × (entry.client < nodes) × (entry.size < 2 ^ 63) × (entry.supplier < nodes) }
    ensures { list.new ≡ entered list.old (entry_length * n) (pos entry.client) entry.tag (pos entry.size) (pos entry.supplier) }
{
    let at = Table::ENTRY * n;
    list[at] = numbers::whole(entry.client as u64);
    list[at + 1] = entry.tag;
    list[at + 2] = numbers::whole(entry.size);
    list[at + 3] = numbers::whole(entry.supplier as u64);
}

impl Lists<'_> {
    // Writes an entry behind those that the list of a port has.
    #[tactic(auto, using(crate::proofs::Gets::gets_entry))]
    pub fn list_entry(&mut self, port: u64, entry: Entry)
        requires { (port ≤ second_port) × (entry_length * (self.old.counts.first + gets first_port port) ≤ length self.old.first.now) × (entry_length * (self.old.counts.second + gets second_port port) ≤ length self.old.second.now) × (entry.client < nodes) × (entry.size < 2 ^ 63) × (entry.supplier < nodes) }
        ensures first { self.new.first.now ≡ entered_on first_port port self.old.first.now self.old.counts.first (pos entry.client) entry.tag (pos entry.size) (pos entry.supplier) }
        ensures second { self.new.second.now ≡ entered_on second_port port self.old.second.now self.old.counts.second (pos entry.client) entry.tag (pos entry.size) (pos entry.supplier) }
        ensures counts { (self.new.counts.first ≡ self.old.counts.first + gets first_port port) × (self.new.counts.second ≡ self.old.counts.second + gets second_port port) }
        ensures same { SameLists self.old self.new }
    {
        if port == Table::FIRST_PORT {
            write_entry(self.first, self.counts.first, entry);
            self.counts.first += 1;
        } else {
            write_entry(self.second, self.counts.second, entry);
            self.counts.second += 1;
        }
    }
}
