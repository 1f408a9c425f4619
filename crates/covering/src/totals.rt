// The sums under all classes that the test needs, in one pass.
ghost use Rattle.std.specs.Prelude.{◌≡◌, true, ◌+◌, ◌<◌, get_or, List, ℤ};
ghost use Rattle.definitions.specs.Limits.{nodes, fixed, weighted, stated};
ghost use Rattle.sums.specs.Sums.{sum_at};
ghost use Rattle.records.specs.Record.{records_in_order};
ghost use Rattle.covering.specs.Cover.{Totals};

use sums::{Summand, UnderClass};
use table::{AccountTable, Table};

// The sums under each class: shares by kind, depths, and the natural and the negative parts of the balances.
// Kept: the new form is no plainer: sums of one kind stand side by side, as `sums` adds them up.
#[derive(Drop)]
pub struct ClassSums {
    pub shares: [u64; Table::SHARE_SUMS],
    pub depths: [u64; Table::NODES],
    pub credits: [u64; Table::NODES],
    pub debts: [u64; Table::NODES],
}

// Those under one class.
#[derive(Clone, Copy)]
pub struct Covered {
    pub shares: UnderClass,
    pub depths: u64,
    pub credits: u64,
    pub debts: u64,
}

impl ClassSums {
    // Sums of 0: those of no node, and also of the root, which is nobody's child.
    pub fn none() -> ClassSums
        ensures { (t : List ℤ) → Totals t 1 result.shares result.depths result.credits result.debts }
    {
        ClassSums {
            shares: [0; Table::SHARE_SUMS],
            depths: [0; Table::NODES],
            credits: [0; Table::NODES],
            debts: [0; Table::NODES],
        }
    }

    // Those under class c.
    pub fn under(&self, c: usize) -> Covered
        requires { c < nodes }
        ensures shares { (result.shares.fixed ≡ get_or self.now.shares (sum_at c fixed) 0) × (result.shares.weights ≡ get_or self.now.shares (sum_at c weighted) 0) × (result.shares.stated ≡ get_or self.now.shares (sum_at c stated) 0) }
        ensures others { (result.depths ≡ get_or self.now.depths c 0) × (result.credits ≡ get_or self.now.credits c 0) × (result.debts ≡ get_or self.now.debts c 0) }
    {
        Covered {
            shares: sums::under(&self.shares, c),
            depths: self.depths[c],
            credits: self.credits[c],
            debts: self.debts[c],
        }
    }
}

// Adds what node k adds to the sums of its class.
fn add_node(table: &AccountTable, sums: &mut ClassSums, k: usize)
    requires { (records_in_order table.now ≡ true) × (0 < k) × (k < nodes) × Totals table.now k sums.old.shares sums.old.depths sums.old.credits sums.old.debts }
    ensures { Totals table.now (k + 1) sums.new.shares sums.new.depths sums.new.credits sums.new.debts }
{
    sums::add_share(table, &mut sums.shares, k);
    sums::add_node(table, Summand::Depths, &mut sums.depths, k);
    sums::add_one_of(
        table,
        Summand::Credits,
        &mut sums.credits,
        Summand::Debts,
        &mut sums.debts,
        k,
    );
}

// All sums, from sums of 0. The root is nobody's child.
pub fn totals(table: &AccountTable, sums: &mut ClassSums)
    requires { (records_in_order table.now ≡ true) × Totals table.now 1 sums.old.shares sums.old.depths sums.old.credits sums.old.debts }
    ensures { Totals table.now nodes sums.new.shares sums.new.depths sums.new.credits sums.new.debts }
{
    for k in 1..Table::NODES {
        add_node(table, sums, k);
    }
}
