// Tests of one node of the tree that a table shows.
ghost use Rattle.std.specs.Prelude.{◌≡◌, ◌<◌};
ghost use Rattle.definitions.specs.Limits.{nodes};
ghost use Rattle.definitions.specs.Tree.{tree_of, there, is_class, is_client, is_fixed, is_stated, child_of, childless};

use crate::{AccountTable, Table};

// Kept: the new form is no plainer: each test has a definition of its own in `Tree`, and one over the number would be `==`.

// Whether node k is there.
#[tactic(auto, unfolding(definitions::specs::Tree::there, definitions::specs::Tree::tree_of))]
pub fn there(table: &AccountTable, k: usize) -> bool
    requires { k < nodes }
    ensures { result ≡ there (tree_of table.now) k }
{
    Table::natural(table, k, Table::SORT) != Table::UNUSED
}

#[tactic(auto, unfolding(definitions::specs::Tree::is_class, definitions::specs::Tree::tree_of))]
pub fn is_class(table: &AccountTable, k: usize) -> bool
    requires { k < nodes }
    ensures { result ≡ is_class (tree_of table.now) k }
{
    Table::natural(table, k, Table::SORT) == Table::CLASS
}

#[tactic(auto, unfolding(definitions::specs::Tree::is_client, definitions::specs::Tree::tree_of))]
pub fn is_client(table: &AccountTable, k: usize) -> bool
    requires { k < nodes }
    ensures { result ≡ is_client (tree_of table.now) k }
{
    Table::natural(table, k, Table::SORT) == Table::CLIENT
}

// Whether the share of node k is fixed.
#[tactic(auto, unfolding(definitions::specs::Tree::is_fixed, definitions::specs::Tree::tree_of))]
pub fn is_fixed(table: &AccountTable, k: usize) -> bool
    requires { k < nodes }
    ensures { result ≡ is_fixed (tree_of table.now) k }
{
    Table::natural(table, k, Table::KIND) == Table::FIXED
}

// Whether the share of node k is stated.
#[tactic(auto, unfolding(definitions::specs::Tree::is_stated, definitions::specs::Tree::tree_of))]
pub fn is_stated(table: &AccountTable, k: usize) -> bool
    requires { k < nodes }
    ensures { result ≡ is_stated (tree_of table.now) k }
{
    Table::natural(table, k, Table::KIND) == Table::STATED
}

// Whether node k is a child of class c.
pub fn child_of(table: &AccountTable, c: usize, k: usize) -> bool
    requires { k < nodes }
    ensures { result ≡ child_of (tree_of table.now) c k }
{
    there(table, k) & (k != 0) & (Table::natural(table, k, Table::PARENT) == c as u64)
}

// Whether class c has no children.
#[tactic(auto, unfolding(definitions::specs::Tree::childless))]
pub fn childless(table: &AccountTable, c: usize) -> bool
    ensures { result ≡ childless (tree_of table.now) c }
{
    numbers::all_below(Table::NODES, |k| !child_of(table, c, k))
}
