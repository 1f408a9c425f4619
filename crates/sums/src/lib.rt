// Sums over the children of a class.
#![tactic(auto)]

ghost use Rattle.std.specs.Prelude.{◌≡◌, cond, ◌+◌, ◌-◌, ◌^◌, ◌≤◌, ◌<◌, min, get_or, set, eqb, ltb, true, false, MatchOption};
ghost use Rattle.definitions.specs.Limits.{nodes, root, kinds, fixed, weighted, stated, whole_share, greatest_rate};
ghost use Rattle.definitions.specs.Tree.{tree_of, there, child_of, count_if, sum_under};
ghost use Rattle.definitions.specs.Rates.{kind_share, kind_sum, fixed_sum, stated_sum};
ghost use Rattle.treelaws.specs.Stated.{stated_wrong_with};
ghost use Rattle.sums.specs.Sums.{term, Summable, SumsBelow, Shareable, share_sums, sum_at, ShareSums};

use table::{AccountTable, Table, tree};

// What is summed. Shares are those of one kind; credits are the natural parts of the balances, debts the negative parts.
// Kept: the new form is no plainer: contracts name the summand, whose sums are known to fit (`Summable`); of a closure they could not.
#[derive(Clone, Copy)]
pub enum Summand {
    Shares(u64),
    Depths,
    Rates,
    Credits,
    Debts,
}

// The sums of the shares under one class, by kind.
#[derive(Clone, Copy)]
pub struct UnderClass {
    pub fixed: u64,
    pub weights: u64,
    pub stated: u64,
}

// The share of node k where it is of this kind, else 0.
#[tactic(auto, unfolding(definitions::specs::Rates::kind_share, definitions::specs::Tree::tree_of))]
pub fn kind_share(table: &AccountTable, kind: u64, k: usize) -> u64
    requires { k < nodes }
    ensures { result ≡ kind_share (tree_of table.now) kind k }
{
    let share = Table::natural(table, k, Table::SHARE);
    if Table::natural(table, k, Table::KIND) == kind {
        return share;
    }
    0
}

// The summand of node k.
#[tactic(auto, unfolding(crate::specs::Sums::term, definitions::specs::Tree::tree_of, definitions::specs::Places::rate, definitions::specs::Places::balance))]
pub fn term(table: &AccountTable, which: Summand, k: usize) -> u64
    requires { k < nodes }
    ensures { result ≡ term which table.now k }
{
    match which {
        Summand::Shares(kind) => kind_share(table, kind, k),
        Summand::Depths => Table::natural(table, k, Table::DEPTH),
        Summand::Rates => Table::natural(table, k, Table::RATE),
        Summand::Credits => Table::natural(table, k, Table::BALANCE),
        Summand::Debts => numbers::negative(Table::get(table, k, Table::BALANCE)),
    }
}

// The summand of node k where it is a child of class c, else 0.
#[tactic(auto, unfolding(definitions::specs::Tree::count_if))]
fn child_term(table: &AccountTable, which: Summand, c: usize, k: usize) -> u64
    requires { k < nodes }
    ensures { result ≡ count_if (child_of (tree_of table.now) c k) (term which table.now) k }
{
    if tree::child_of(table, c, k) {
        return term(table, which, k);
    }
    0
}

// The sum under class c.
pub fn sum_under(table: &AccountTable, which: Summand, c: usize) -> u64
    requires { Summable which table.now }
    ensures { result ≡ sum_under (tree_of table.now) c (term which table.now) }
{
    let mut sum = 0;
    for k in 0..Table::NODES {
        sum += child_term(table, which, c, k);
    }
    sum
}

// The sum of the shares of one kind under class c, with a share of any kind in the place of an old one of that kind.
#[tactic(auto, unfolding(crate::specs::Sums::term, definitions::specs::Rates::kind_sum))]
fn sum_with(table: &AccountTable, summed: u64, c: usize, old: u64, kind: u64, share: u64) -> u64
    requires { (Summable (Summand.Shares summed) table.now) × (old ≤ kind_sum (tree_of table.now) summed c) × (share ≤ greatest_rate) }
    ensures { result ≡ kind_sum (tree_of table.now) summed c + cond (eqb kind summed) share 0 - old }
{
    let sum = sum_under(table, Summand::Shares(summed), c);
    if kind == summed {
        return sum + share - old;
    }
    sum - old
}

// Whether the fixed shares under class c would be above 10,000 with a share of this kind in the place of an old fixed share.
pub fn shares_above(table: &AccountTable, c: usize, old: u64, kind: u64, share: u64) -> bool
    requires { (Summable (Summand.Shares fixed) table.now) × (old ≤ fixed_sum (tree_of table.now) c) × (share ≤ greatest_rate) }
    ensures { result ≡ ltb whole_share (fixed_sum (tree_of table.now) c + cond (eqb kind fixed) share 0 - old) }
{
    Table::WHOLE_SHARE < sum_with(table, Table::FIXED, c, old, kind, share)
}

// Whether a share of this kind under class c, in the place of an old stated rate, would be stated elsewhere than under the root
// or make the stated rates exceed the disk's.
#[tactic(auto, unfolding(treelaws::specs::Stated::stated_wrong_with, definitions::specs::Places::rate))]
pub fn stated_wrong(table: &AccountTable, c: usize, old: u64, kind: u64, share: u64) -> bool
    requires { (Summable (Summand.Shares stated) table.now) × (old ≤ stated_sum (tree_of table.now) root) × (share ≤ greatest_rate) }
    ensures { result ≡ stated_wrong_with table.now c old kind share }
{
    if kind != Table::STATED {
        return false;
    }
    let sum = sum_with(table, Table::STATED, 0, old, kind, share);
    (c != 0) | (Table::natural(table, 0, Table::RATE) < sum)
}

// Adds an amount to the sum of class c.
fn add_to(sums: &mut [u64; Table::NODES], c: usize, amount: u64)
    requires { (c < nodes) × (get_or sums.old c 0 + amount < 2 ^ 64) }
    ensures { sums.new ≡ set sums.old c (get_or sums.old c 0 + amount) }
{
    sums[c] += amount;
}

// Adds the summand of node k, where it is there, to the sum of its class.
pub fn add_node(table: &AccountTable, which: Summand, sums: &mut [u64; Table::NODES], k: usize)
    requires { Summable which table.now × (0 < k) × (k < nodes) × SumsBelow which table.now k sums.old }
    ensures { SumsBelow which table.now (k + 1) sums.new }
{
    if !tree::there(table, k) {
        return;
    }
    let c = Table::natural(table, k, Table::PARENT) as usize;
    add_to(sums, c, term(table, which, k));
}

// Adds two summands of node k, where it is there, to their sums of its class. One of the two is 0, so one sum alone is written.
// Kept: the new form is no plainer: one of the two sums is written, and which is selected without a jump.
pub fn add_one_of(
    table: &AccountTable,
    first: Summand,
    firsts: &mut [u64; Table::NODES],
    second: Summand,
    seconds: &mut [u64; Table::NODES],
    k: usize,
)
    requires { Summable first table.now × Summable second table.now × (0 < k) × (k < nodes) × (min (term first table.now k) (term second table.now k) ≡ 0) × SumsBelow first table.now k firsts.old × SumsBelow second table.now k seconds.old }
    ensures { SumsBelow first table.now (k + 1) firsts.new × SumsBelow second table.now (k + 1) seconds.new }
{
    if !tree::there(table, k) {
        return;
    }
    let c = Table::natural(table, k, Table::PARENT) as usize;
    let one = term(table, first, k);
    let amount = one + term(table, second, k);
    let is_first = 0 < one;
    if is_first {
        add_to(firsts, c, amount);
    } else {
        add_to(seconds, c, amount);
    }
}

// Where the sum of one kind under class c stands among the sums of shares, which stand kind by kind.
// Kept: the new form is no plainer: the place is worked out from the kind, and no array is chosen.
pub fn sum_at(c: usize, kind: usize) -> usize
    requires { (c < nodes) × (kind < kinds) }
    ensures place { result ≡ sum_at c kind }
    ensures small { result < share_sums }
{
    kind * Table::NODES + c
}

// Where the sum of node k's kind under its class stands, where the node is there.
#[tactic(auto, unfolding(definitions::specs::Tree::tree_of))]
pub fn sum_of(table: &AccountTable, k: usize) -> Option<usize>
    requires { (k < nodes) × (there (tree_of table.now) k ≡ true → (tree_of table.now).parent k < nodes) × (there (tree_of table.now) k ≡ true → (tree_of table.now).kind k < kinds) }
    ensures { MatchOption result (there (tree_of table.now) k ≡ false) (λ at. (there (tree_of table.now) k ≡ true) × (at ≡ sum_at ((tree_of table.now).parent k) ((tree_of table.now).kind k)) × (at < share_sums)) }
{
    if !tree::there(table, k) {
        return None;
    }
    let c = Table::natural(table, k, Table::PARENT) as usize;
    let kind = Table::natural(table, k, Table::KIND) as usize;
    Some(sum_at(c, kind))
}

// Adds the share of node k, where it is there, to the sum of its kind under its class.
pub fn add_share(table: &AccountTable, shares: &mut [u64; Table::SHARE_SUMS], k: usize)
    requires { Shareable (tree_of table.now) × (0 < k) × (k < nodes) × ShareSums (tree_of table.now) k shares.old }
    ensures { ShareSums (tree_of table.now) (k + 1) shares.new }
{
    if let Some(at) = sum_of(table, k) {
        shares[at] += Table::natural(table, k, Table::SHARE);
    }
}

// The sums of the shares of each kind under all classes, in one pass from sums of 0. The root is nobody's child.
pub fn share_sums(table: &AccountTable, shares: &mut [u64; Table::SHARE_SUMS])
    requires { Shareable (tree_of table.now) × ShareSums (tree_of table.now) 1 shares.old }
    ensures { ShareSums (tree_of table.now) nodes shares.new }
{
    for k in 1..Table::NODES {
        add_share(table, shares, k);
    }
}

// Those under class c.
pub fn under(shares: &[u64; Table::SHARE_SUMS], c: usize) -> UnderClass
    requires { c < nodes }
    ensures { (result.fixed ≡ get_or shares.now (sum_at c fixed) 0) × (result.weights ≡ get_or shares.now (sum_at c weighted) 0) × (result.stated ≡ get_or shares.now (sum_at c stated) 0) }
{
    UnderClass {
        fixed: shares[sum_at(c, Table::FIXED as usize)],
        weights: shares[sum_at(c, Table::WEIGHTED as usize)],
        stated: shares[sum_at(c, Table::STATED as usize)],
    }
}
