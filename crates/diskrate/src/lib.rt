// Change rate.
#![tactic(auto)]

ghost use Rattle.std.specs.Prelude.{◌≡◌, ltb};
ghost use Rattle.definitions.specs.Limits.{root};
ghost use Rattle.definitions.specs.Tree.{tree_of};
ghost use Rattle.definitions.specs.Rates.{stated_sum};
ghost use Rattle.answers.specs.Answers.{number_in, told};
ghost use Rattle.definitions.specs.Calls.{change_rate_refusal, change_rate_table, change_rate_answer};

use answers::Refusal;
use order::Ordered;
use table::{AccountTable, Table};

// Whether the stated rates are above a rate of the disk.
fn stated_above(ordered: Ordered<'_>, rate: u64) -> bool
    ensures { result ≡ ltb rate (stated_sum (tree_of ordered.entry.table.now) root) }
{
    rate < sums::sum_under(ordered.table, sums::Summand::Shares(Table::STATED), 0)
}

// The first cause that turns change rate back.
fn change_rate_refusal(table: &AccountTable, rate: i64) -> Result<(), Refusal>
    ensures first { number_in result ≡ change_rate_refusal table.now rate }
{
    let ordered = order::judge(table)?;
    if !numbers::within(rate, 1, Table::GREATEST_RATE) {
        return Err(Refusal::OutsideLimits);
    }
    if stated_above(ordered, numbers::natural(rate)) {
        return Err(Refusal::StatedWrong);
    }
    Ok(())
}

// Change rate. Document 01, "Calls".
pub fn change_rate(table: &mut [i64], rate: i64) -> Result<i64, Refusal>
    ensures answer { told result ≡ change_rate_answer table.old rate }
    ensures table { table.new ≡ change_rate_table table.old rate }
{
    let Some(table) = table.as_mut_array() else {
        return Err(Refusal::NotInOrder);
    };
    change_rate_refusal(table, rate)?;
    Table::put(table, 0, Table::RATE, rate);
    renewing::renew_below(table, 0);
    Ok(0)
}
