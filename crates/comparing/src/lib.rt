// Same: whether two tables show the same tree and disk rate.
#![tactic(auto)]

ghost use Rattle.std.specs.Prelude.{◌≡◌, ◌<◌};
ghost use Rattle.numbers.specs.Whole.{same_ℤ};
ghost use Rattle.numbers.specs.Below.{all_below};
ghost use Rattle.definitions.specs.Limits.{nodes, rate_at};
ghost use Rattle.definitions.specs.Places.{place};
ghost use Rattle.answers.specs.Answers.{told_compared};
ghost use Rattle.definitions.specs.Calls.{same_tree, same_answer};

use answers::Refusal;
use table::{AccountTable, Table};

// Whether sort and places 1 to 5 of node k are the same in both.
// Kept: the new form is no plainer: same and set minute compare other places, each by its own definition.
fn same_node(first: &AccountTable, second: &AccountTable, k: usize) -> bool
    requires { k < nodes }
    ensures { result ≡ all_below rate_at (λ p. same_ℤ (place first.now k p) (place second.now k p)) }
{
    numbers::all_below(Table::RATE, |p| Table::same_place(first, second, k, p))
}

// Whether all nodes are the same in both.
fn same_nodes(first: &AccountTable, second: &AccountTable) -> bool
    ensures { result ≡ all_below nodes (λ k. all_below rate_at (λ p. same_ℤ (place first.now k p) (place second.now k p))) }
{
    numbers::all_below(Table::NODES, |k| same_node(first, second, k))
}

fn same_tree(first: &AccountTable, second: &AccountTable) -> bool
    ensures { result ≡ same_tree first.now second.now }
{
    let nodes = same_nodes(first, second);
    let rates = Table::same_place(first, second, 0, Table::RATE);
    nodes & rates
}

// Same. Document 01, "Same tree, and the plan file".
#[tactic(auto, using(crate::proofs::Refused::short_first, crate::proofs::Refused::short_second))]
pub fn same(first: &[i64], second: &[i64]) -> Result<bool, Refusal>
    ensures { told_compared result ≡ same_answer first.now second.now }
{
    let (Some(first), Some(second)) = (first.as_array(), second.as_array()) else {
        return Err(Refusal::NotInOrder);
    };
    order::judge(first)?;
    order::judge(second)?;
    Ok(same_tree(first, second))
}
