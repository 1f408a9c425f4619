// What turns a join back: the limits of its arguments, and the causes in the tree.
#![tactic(auto)]

ghost use Rattle.std.specs.Prelude.{◌≡◌, [], ◌∷◌, ◌≤◌, eqb};
ghost use Rattle.numbers.specs.Tests.{every};
ghost use Rattle.definitions.specs.Limits.{last_node, last_class_level, class};
ghost use Rattle.definitions.specs.Tree.{tree_of};
ghost use Rattle.definitions.specs.Refusals.{first};
ghost use Rattle.definitions.specs.Calls.{shares_above, depths_above, stated_wrong, join_limits, sum_causes};
ghost use Rattle.answers.specs.Answers.{number_in};
ghost use Rattle.treelaws.specs.Joins.{refusal_of, joined_by};
ghost use Rattle.admission.specs.NewNodes.{asked, Natural, join_of, Judged, Placeable};

use answers::Refusal;
use table::{AccountTable, Table};

// The joining node: join's arguments as natural numbers.
#[derive(Clone, Copy)]
pub struct NewNode {
    pub node: usize,
    pub parent: usize,
    pub sort: u64,
    pub kind: u64,
    pub share: u64,
    pub depth: u64,
    pub port: u64,
}

// Whether join's arguments are within their limits.
// Kept: the C interface needs it: these seven numbers are the arguments of its call, here and in the next function.
pub fn join_limits(
    node: i64,
    parent: i64,
    sort: i64,
    kind: i64,
    share: i64,
    depth: i64,
    port: i64,
) -> bool
    ensures { result ≡ join_limits node parent sort kind share depth port }
{
    let node_fits = numbers::within(node, 1, Table::LAST_NODE);
    let parent_fits = numbers::within(parent, 0, Table::LAST_NODE);
    let sort_fits = numbers::within(sort, Table::CLASS, Table::CLIENT);
    let kind_fits = numbers::within(kind, Table::FIXED, Table::STATED);
    let most = Table::share_limit(numbers::natural(kind));
    let share_fits = numbers::within(share, 1, most);
    let depth_fits = numbers::within(depth, 1, Table::GREATEST_DEPTH);
    let last = Table::port_limit(numbers::natural(sort));
    let port_fits = numbers::within(port, 0, last);
    node_fits & parent_fits & sort_fits & kind_fits & share_fits & depth_fits & port_fits
}

// The node that they ask for.
#[tactic(auto, using(definitions::proofs::Refusals::natural_of))]
pub fn new_node(
    node: i64,
    parent: i64,
    sort: i64,
    kind: i64,
    share: i64,
    depth: i64,
    port: i64,
) -> NewNode
    ensures { Natural result (asked node parent sort kind share depth port) }
{
    NewNode {
        node: numbers::natural(node) as usize,
        parent: numbers::natural(parent) as usize,
        sort: numbers::natural(sort),
        kind: numbers::natural(kind),
        share: numbers::natural(share),
        depth: numbers::natural(depth),
        port: numbers::natural(port),
    }
}

// Whether a class would join under level 3.
fn level_too_low(table: &AccountTable, new: NewNode) -> bool
    requires { new.parent ≤ last_node }
    ensures { result ≡ every (eqb new.sort class ∷ eqb ((tree_of table.now).level new.parent) last_class_level ∷ []) }
{
    let joins_class = new.sort == Table::CLASS;
    let at_end = Table::natural(table, new.parent, Table::LEVEL) == Table::LAST_CLASS_LEVEL;
    joins_class & at_end
}

// Whether the fixed shares under the parent would be above 10,000.
fn shares_above(table: &AccountTable, new: NewNode) -> bool
    requires { Placeable table.now new }
    ensures { result ≡ shares_above (joined_by table.now (join_of new)) new.parent }
{
    sums::shares_above(table, new.parent, 0, new.kind, new.share)
}

// Whether the depths under the parent would be above its own.
fn depths_above(table: &AccountTable, new: NewNode) -> bool
    requires { Placeable table.now new }
    ensures { result ≡ depths_above (joined_by table.now (join_of new)) new.parent }
{
    Table::natural(table, new.parent, Table::DEPTH)
        < sums::sum_under(table, sums::Summand::Depths, new.parent) + new.depth
}

// Whether the node would be stated elsewhere than under the root, or the stated rates would be above the disk's.
fn stated_wrong(table: &AccountTable, new: NewNode) -> bool
    requires { Placeable table.now new }
    ensures { result ≡ stated_wrong (joined_by table.now (join_of new)) }
{
    sums::stated_wrong(table, new.parent, 0, new.kind, new.share)
}

// The first cause in the sums that turns the node back.
fn sums_refusal(table: &AccountTable, new: NewNode) -> Result<(), Refusal>
    requires { Placeable table.now new }
    ensures first { number_in result ≡ first (sum_causes (joined_by table.now (join_of new)) new.parent) }
{
    if shares_above(table, new) {
        return Err(Refusal::SharesAbove);
    }
    if depths_above(table, new) {
        return Err(Refusal::DepthAbove);
    }
    if stated_wrong(table, new) {
        return Err(Refusal::StatedWrong);
    }
    Ok(())
}

// The first cause in the tree that turns the node back.
pub fn tree_refusal(table: &AccountTable, new: NewNode) -> Result<(), Refusal>
    requires { Judged table.now new }
    ensures first { number_in result ≡ refusal_of table.now (join_of new) }
{
    if !table::tree::there(table, new.parent) {
        return Err(Refusal::NotThere);
    }
    if table::tree::there(table, new.node) {
        return Err(Refusal::InUse);
    }
    if table::tree::is_client(table, new.parent) {
        return Err(Refusal::WrongNode);
    }
    if level_too_low(table, new) {
        return Err(Refusal::LevelTooLow);
    }
    sums_refusal(table, new)
}
