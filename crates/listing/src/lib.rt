// The nodes of a table in the order of its plan: by level, then by number; and what the plan says of a node.
#![tactic(auto)]

ghost use Rattle.std.specs.Prelude.{◌≡◌, not, ◌≤◌, ◌<◌, length, take};
ghost use Rattle.definitions.specs.Limits.{nodes};
ghost use Rattle.definitions.specs.Tree.{tree_of, there, is_stated, test_if};
ghost use Rattle.planformat.specs.Kinds.{kind_of};
ghost use Rattle.planformat.specs.Nodes.{share_in, share_kind_in, held_by, kind_in, entry_by};
ghost use Rattle.planlaws.specs.Writing.{stands, order, entry_of, any_stated, unwritable};
ghost use Rattle.listing.specs.Listed.{Standing};

use layout::{Edition, Node, Share, Sort};
use table::{AccountTable, Table, tree};

// How many pairs of a level and a number there are.
const STANDINGS: usize = Table::NODES * (Table::LAST_LEVEL as usize + 1);

// Nodes in order, and how many: the first `count` of these.
// Kept: no heap: the nodes are the first `count` of 64 places.
#[derive(Clone, Copy)]
pub struct Listing {
    pub nodes: [u64; Table::NODES],
    pub count: usize,
    pub ghost few: { count ≤ length nodes },
}

impl Listing {
    // These nodes.
    pub fn nodes(&self) -> &[u64]
        ensures { result.now ≡ take self.now.count self.now.nodes }
    {
        &self.nodes[..self.count]
    }
}

// Whether node m % NODES is there at level m / NODES and is not the root.
fn stands(table: &AccountTable, m: usize) -> bool
    ensures { result ≡ stands (tree_of table.now) m }
{
    let k = m % Table::NODES;
    let there = tree::there(table, k);
    let below = k != 0;
    let level = Table::natural(table, k, Table::LEVEL) == (m / Table::NODES) as u64;
    there & below & level
}

// The nodes but for the root, by level, then by number.
pub fn list_nodes(table: &AccountTable) -> Listing
    ensures nodes { take result.count result.nodes ≡ order (tree_of table.now) }
    ensures count { result.count ≡ length (order (tree_of table.now)) }
{
    let mut nodes = [0; Table::NODES];
    let mut count = 0;
    for m in 0..STANDINGS {
        nodes[count] = (m % Table::NODES) as u64;
        count += usize::from(stands(table, m));
    }
    Listing { nodes, count }
}

// Whether node k, where it is there, is not stated.
fn unstated(table: &AccountTable, k: usize) -> bool
    requires { k < nodes }
    ensures { result ≡ test_if (there (tree_of table.now) k) (λ j. not (is_stated (tree_of table.now) j)) k }
{
    !tree::there(table, k) | !tree::is_stated(table, k)
}

// Whether a stated node is in the tree.
#[tactic(auto, unfolding(planlaws::specs::Writing::any_stated, definitions::specs::Tree::each_node))]
fn any_stated(table: &AccountTable) -> bool
    ensures { result ≡ any_stated (tree_of table.now) }
{
    !numbers::all_below(Table::NODES, |k| unstated(table, k))
}

// Whether an edition has no kind for a node of the tree.
#[tactic(auto, unfolding(planlaws::specs::Writing::unwritable))]
pub fn unwritable(table: &AccountTable, edition: Edition) -> bool
    ensures { result ≡ unwritable edition (tree_of table.now) }
{
    match edition {
        Edition::First => any_stated(table),
        Edition::Second => false,
    }
}

// The share of node k: fixed, stated or weighted.
#[tactic(auto, unfolding(planformat::specs::Nodes::share_in, planformat::specs::Nodes::share_kind_in, definitions::specs::Tree::tree_of))]
fn share_at(table: &AccountTable, k: usize) -> Share
    requires { Standing table.now k }
    ensures share { share_in result ≡ (tree_of table.now).share k }
    ensures kind { share_kind_in result ≡ (tree_of table.now).kind k }
{
    let share = Table::natural(table, k, Table::SHARE);
    match Table::natural(table, k, Table::KIND) {
        Table::FIXED => Share::Fixed(share),
        Table::STATED => Share::Stated(share),
        _ => Share::Weighted(share),
    }
}

// The sort of node k, class or client, with its share.
#[tactic(auto, unfolding(planformat::specs::Nodes::held_by, planformat::specs::Nodes::sort_in, planformat::specs::Nodes::kind_in, definitions::specs::Tree::tree_of))]
fn sort_at(table: &AccountTable, k: usize) -> Sort
    requires { Standing table.now k }
    ensures kind { kind_in result ≡ kind_of ((tree_of table.now).sort k) ((tree_of table.now).kind k) }
    ensures share { share_in (held_by result) ≡ (tree_of table.now).share k }
{
    let share = share_at(table, k);
    if tree::is_class(table, k) {
        Sort::Class(share)
    } else {
        Sort::Client(share)
    }
}

// What the plan says of node k.
pub fn node_of(table: &AccountTable, k: usize) -> Node
    requires { Standing table.now k }
    ensures entry { entry_by result ≡ entry_of (tree_of table.now) k }
    ensures small { (result.number < nodes) × (result.parent < nodes) }
{
    let parent = Table::natural(table, k, Table::PARENT);
    let sort = sort_at(table, k);
    let depth = Table::natural(table, k, Table::DEPTH);
    Node {
        number: k as u64,
        parent,
        sort,
        depth,
    }
}
