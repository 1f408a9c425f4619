// The renewal of the rates below a class. Document 02, (e).
#![tactic(auto)]

ghost use Rattle.std.specs.Prelude.{◌≡◌, ◌+◌, ◌*◌, ◌<◌};
ghost use Rattle.definitions.specs.Limits.{nodes};
ghost use Rattle.definitions.specs.Tree.{tree_of};
ghost use Rattle.definitions.specs.Renewal.{renewed_below};
ghost use Rattle.sums.specs.Rated.{Rated};
ghost use Rattle.renewing.specs.Renewal.{at_level, Descent, Onward};
ghost use Rattle.sums.specs.Sums.{ShareSums};

use table::{AccountTable, Table, tree};

// Whether node k is there at a level.
fn at_level(table: &AccountTable, k: usize, level: u64) -> bool
    requires { k < nodes }
    ensures { result ≡ at_level (tree_of table.now) level k }
{
    tree::there(table, k) & (Table::natural(table, k, Table::LEVEL) == level)
}

// Gives node k its rate and marks it, where it stands at this level below class c: its parent is c or is marked.
// Kept: the new form is no plainer: of a struct of sums, marks and class every contract would have to say that two of them stay.
fn renew_node(
    table: &mut AccountTable,
    shares: &[u64; Table::SHARE_SUMS],
    below: &mut [bool; Table::NODES],
    c: usize,
    level: u64,
    k: usize,
)
    requires { Descent table.old c (level * nodes + k) below.old × ShareSums (tree_of table.old) nodes shares.now × (0 < level) × (k < nodes) }
    ensures { Onward table.old table.new c (level * nodes + k + 1) below.new }
{
    if !at_level(table, k, level) {
        return;
    }
    let parent = Table::natural(table, k, Table::PARENT) as usize;
    let is_below = (parent == c) | below[parent];
    if !is_below {
        return;
    }
    let rate = Table::natural(table, parent, Table::RATE);
    let renewed = dividing::child_rate(table, k, rate, sums::under(shares, parent));
    Table::put_natural(table, k, Table::RATE, renewed);
    below[k] = true;
}

// Renews the nodes at one level below class c, where those above have their rates.
fn renew_level(
    table: &mut AccountTable,
    shares: &[u64; Table::SHARE_SUMS],
    below: &mut [bool; Table::NODES],
    c: usize,
    level: u64,
)
    requires { Descent table.old c (level * nodes) below.old × ShareSums (tree_of table.old) nodes shares.now × (0 < level) }
    ensures { Onward table.old table.new c (level * nodes + nodes) below.new }
{
    for k in 0..Table::NODES {
        renew_node(table, shares, below, c, level, k);
    }
}

// Renews the rates below class c from the class's own, level by level. Every other rate may be right or wrong, and stays.
pub fn renew_below(table: &mut AccountTable, c: usize)
    requires { Rated table.old c }
    ensures { table.new ≡ renewed_below table.old c }
{
    let mut shares = [0; Table::SHARE_SUMS];
    sums::share_sums(table, &mut shares);
    let mut below = [false; Table::NODES];
    let first = Table::natural(table, c, Table::LEVEL) + 1;
    for level in first..Table::LAST_LEVEL + 1 {
        renew_level(table, &shares, &mut below, c, level);
    }
}
