// The parts of a plan of an edition, written into a buffer that holds it.
#![tactic(auto)]

ghost use Rattle.std.specs.Prelude.{◌≡◌, ◌≤◌, ◌<◌, length};
ghost use Rattle.planformat.specs.Bytes.{bytes_below};
ghost use Rattle.planformat.specs.Format.{entry_at, body_at, plan_length, head_bytes, entry_bytes, body_bytes};
ghost use Rattle.planformat.specs.Written.{written};
ghost use Rattle.planlaws.specs.Writing.{plan_of, plan_bytes};
ghost use Rattle.listing.specs.Listed.{Listed};

use layout::{Edition, bodies};
use table::{AccountTable, Table};

// What a plan of an edition is written from: a table in order, and the nodes of the plan, in order.
#[derive(Clone, Copy)]
pub struct Contents<'a> {
    pub table: &'a AccountTable,
    pub edition: Edition,
    pub nodes: &'a [u64],
    pub ghost listed: { Listed table.now nodes.now (length nodes.now) },
}

impl<'a> Contents<'a> {
    // Writes the head.
    fn put_head(self, buffer: &mut [u8])
        requires { plan_length self.edition (length self.nodes.now) ≤ length buffer.old }
        ensures { buffer.new ≡ written buffer.old 0 (head_bytes self.entry.edition (plan_of self.entry.table.now)) }
    {
        let rate = Table::natural(self.table, 0, Table::RATE);
        let depth = Table::natural(self.table, 0, Table::DEPTH);
        putting::put_head(buffer, self.edition, rate, depth, self.nodes.len() as u64);
    }

    // Writes entry i, and body i, of the nodes listed.
    #[tactic(auto, using(listing::proofs::Members::listed_few, listing::proofs::Members::listed_standing))]
    fn put_entry(self, i: usize, buffer: &mut [u8])
        requires { (i < length self.nodes.now) × (plan_length self.edition (length self.nodes.now) ≤ length buffer.old) }
        ensures { buffer.new ≡ written buffer.old (entry_at self.entry.edition i) (entry_bytes self.entry.edition (plan_of self.entry.table.now) i) }
    {
        let node = listing::node_of(self.table, self.nodes[i] as usize);
        let offset = forms::body_at(self.edition, self.nodes.len(), i) as u64;
        let at = forms::entry_at(self.edition, i);
        putting::put_entry(buffer, at, node.number, node.parent, offset);
    }

    #[tactic(auto, using(listing::proofs::Members::listed_few, listing::proofs::Members::listed_standing))]
    fn put_body(self, i: usize, buffer: &mut [u8])
        requires { (i < length self.nodes.now) × (plan_length self.edition (length self.nodes.now) ≤ length buffer.old) }
        ensures { buffer.new ≡ written buffer.old (body_at self.entry.edition (length self.entry.nodes.now) i) (body_bytes self.entry.edition (plan_of self.entry.table.now) i) }
    {
        let node = listing::node_of(self.table, self.nodes[i] as usize);
        let sort = node.sort;
        let kind = bodies::kind_in(sort);
        let share = bodies::share_in(bodies::held_by(sort));
        let at = forms::body_at(self.edition, self.nodes.len(), i);
        putting::put_body(buffer, self.edition, at, u64::from(kind), share, node.depth);
    }

    // Writes the entries in turn, and the bodies behind them.
    // Kept: the new form is no plainer: one function of both would be told the writer, the bytes and the place of each.
    fn put_entries(self, buffer: &mut [u8])
        requires { plan_length self.edition (length self.nodes.now) ≤ length buffer.old }
        ensures { buffer.new ≡ written buffer.old (entry_at self.entry.edition 0) (bytes_below (length self.entry.nodes.now) (entry_bytes self.entry.edition (plan_of self.entry.table.now))) }
    {
        for i in 0..self.nodes.len() {
            self.put_entry(i, buffer);
        }
    }

    fn put_bodies(self, buffer: &mut [u8])
        requires { plan_length self.edition (length self.nodes.now) ≤ length buffer.old }
        ensures { buffer.new ≡ written buffer.old (entry_at self.entry.edition (length self.entry.nodes.now)) (bytes_below (length self.entry.nodes.now) (body_bytes self.entry.edition (plan_of self.entry.table.now))) }
    {
        for i in 0..self.nodes.len() {
            self.put_body(i, buffer);
        }
    }

    // Writes the plan: the head, the entries, then the bodies.
    #[tactic(auto, using(listing::proofs::Members::listed_count, planformat::proofs::Written::plan_written), unfolding(planlaws::specs::Writing::plan_bytes))]
    pub fn put_plan(self, buffer: &mut [u8])
        requires { plan_length self.edition (length self.nodes.now) ≤ length buffer.old }
        ensures { buffer.new ≡ written buffer.old 0 (plan_bytes self.entry.edition self.entry.table.now) }
    {
        self.put_head(buffer);
        self.put_entries(buffer);
        self.put_bodies(buffer);
    }
}
