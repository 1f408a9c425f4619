// Whether a table is in order: the test of document 01, "The table", made in stages. Each stage makes the next one safe
// to compute.
#![tactic(auto)]

ghost use Rattle.std.specs.Prelude.{◌≡◌, true, false, MatchResult};
ghost use Rattle.answers.specs.declared.Refusal.TheVariants.{NotInOrder};
ghost use Rattle.definitions.specs.Order.{in_order};

use answers::Refusal;
use covering::{classes, totals};
use table::AccountTable;

// Whether a table of the right length is in order.
pub fn passes(table: &AccountTable) -> bool
    ensures { result ≡ in_order table.now }
{
    let header = places::header_in_order(table);
    let root = places::root_in_order(table);
    let each = records::records_in_order(table);
    if !(header & root & each) {
        return false;
    }
    let mut sums = totals::ClassSums::none();
    totals::totals(table, &mut sums);
    if !classes::classes_cover(table, &sums) {
        return false;
    }
    let rates = ratetest::rates_in_order(table, &sums.shares);
    let queues = queues::queues_in_order(table);
    rates & queues
}

// A table that is in order.
#[derive(Clone, Copy)]
pub struct Ordered<'a> {
    pub table: &'a AccountTable,
    pub ghost in_order: { in_order table.now ≡ true },
}

// The table, where it is in order.
pub fn judge<'a>(table: &'a AccountTable) -> Result<Ordered<'a>, Refusal>
    ensures { MatchResult result (λ ordered. (ordered.table ≡ table.entry) × (in_order table.now ≡ true)) (λ why. (why ≡ NotInOrder) × (in_order table.now ≡ false)) }
{
    if passes(table) {
        Ok(Ordered { table })
    } else {
        Err(Refusal::NotInOrder)
    }
}

// Whether a table is in order. Document 01, "The table".
#[tactic(auto, using(crate::proofs::Length::other_length))]
pub fn in_order(table: &[i64]) -> bool
    ensures { result ≡ in_order table.now }
{
    match table.as_array() {
        Some(table) => passes(table),
        None => false,
    }
}
