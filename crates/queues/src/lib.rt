// The waiting requests: their sizes and arrival numbers.
#![tactic(auto)]

ghost use Rattle.std.specs.Prelude.{◌≡◌, ℕ, ◌+◌, ◌-◌, ◌<◌, ◌≤◌, ◌||◌, eqb, ltb};
ghost use Rattle.numbers.specs.Below.{all_below};
ghost use Rattle.definitions.specs.Limits.{nodes, greatest_depth, most_waiting};
ghost use Rattle.definitions.specs.Places.{waiting, arrival};
ghost use Rattle.definitions.specs.Tree.{tree_of};
ghost use Rattle.definitions.specs.Order.{request_in_order, queue_in_order, differs_at, arrivals_differ};
ghost use Rattle.queues.specs.Waiting.{waiting_in_order};
ghost use Rattle.queues.specs.Marks.{marks, mark_of, MarkedBelow};

use table::{AccountTable, Table, queue};

// How many marks there are: a prime, so that numbers in equal steps have different marks, unless the step is a multiple of it.
// Kept: no heap: the marks stand for a set of the arrival numbers.
const MARKS: usize = 4093;

// Whether request i of node k arrived after the one before it.
fn rising(table: &AccountTable, k: usize, i: usize) -> bool
    requires { (k < nodes) × (i < most_waiting) }
    ensures { result ≡ (eqb i 0 || ltb (arrival table.now k (i - 1)) (arrival table.now k i)) }
{
    if i == 0 {
        return true;
    }
    queue::arrival(table, k, i - 1) < queue::arrival(table, k, i)
}

// Whether request i of node k is in order.
#[tactic(auto, unfolding(definitions::specs::Tree::tree_of))]
fn request_in_order(table: &AccountTable, k: usize, i: usize) -> bool
    requires { (k < nodes) × (i < most_waiting) × ((tree_of table.now).depth k ≤ greatest_depth) }
    ensures { result ≡ request_in_order table.now k i }
{
    let place = Table::QUEUE + Table::REQUEST * i;
    let size = Table::get(table, k, place + Table::SIZE);
    let depth = Table::natural(table, k, Table::DEPTH);
    let fits = costs::within(size, depth);
    let number = places::place_within(table, k, place + Table::ARRIVAL, 1, Table::count(table));
    let rising = rising(table, k, i);
    fits & number & rising
}

// Whether every request of node k is in order.
#[tactic(auto, unfolding(definitions::specs::Order::queue_in_order))]
fn queue_in_order(table: &AccountTable, k: usize) -> bool
    requires { (k < nodes) × (waiting table.now k ≤ most_waiting) × ((tree_of table.now).depth k ≤ greatest_depth) }
    ensures { result ≡ queue_in_order table.now k }
{
    numbers::all_below(queue::waiting(table, k), |i| request_in_order(table, k, i))
}

// The mark of arrival number a.
#[tactic(auto, unfolding(crate::specs::Marks::mark_of))]
fn mark_of(a: u64) -> usize
    ensures { (result ≡ mark_of a) × (result < marks) }
{
    a as usize % MARKS
}

// Whether it differs from those of every node below k.
fn differs_below(table: &AccountTable, a: u64, k: usize) -> bool
    requires { (k ≤ nodes) × ((j : ℕ) → j < nodes → waiting table.now j ≤ most_waiting) }
    ensures { result ≡ all_below k (differs_at table.now a) }
{
    numbers::all_below(k, |j| queue::differs_at(table, a, j))
}

// The same where the marks of every node below k are set: a number whose mark is not set need not be compared.
fn differs_marked(table: &AccountTable, marked: &[bool; MARKS], a: u64, k: usize) -> bool
    requires { (k ≤ nodes) × ((j : ℕ) → j < nodes → waiting table.now j ≤ most_waiting) × MarkedBelow table.now marked.now k }
    ensures { result ≡ all_below k (differs_at table.now a) }
{
    if !marked[mark_of(a)] {
        return true;
    }
    differs_below(table, a, k)
}

// Whether the arrival numbers of node k differ from those of every lower node. Sets the marks of node k.
// Kept: the new form is no plainer: each turn also sets a mark, so it is no `Fn`.
#[tactic(auto, using(numbers::proofs::All::all_loop), unfolding(definitions::specs::Order::arrivals_differ))]
fn arrivals_differ(table: &AccountTable, marked: &mut [bool; MARKS], k: usize) -> bool
    requires { (k < nodes) × ((j : ℕ) → j < nodes → waiting table.now j ≤ most_waiting) × MarkedBelow table.now marked.old k }
    ensures differ { result ≡ arrivals_differ table.now k }
    ensures marked { MarkedBelow table.now marked.new (k + 1) }
{
    let mut ok = true;
    for i in 0..queue::waiting(table, k) {
        let a = queue::arrival(table, k, i);
        ok = ok & differs_marked(table, marked, a, k);
        marked[mark_of(a)] = true;
    }
    ok
}

// Whether every waiting request is in order.
// Kept: the new form is no plainer: each turn also sets marks, so it is no `Fn`.
#[tactic(auto, using(numbers::proofs::All::all_loop))]
pub fn queues_in_order(table: &AccountTable) -> bool
    requires { ((j : ℕ) → j < nodes → waiting table.now j ≤ most_waiting) × ((j : ℕ) → j < nodes → (tree_of table.now).depth j ≤ greatest_depth) }
    ensures { result ≡ all_below nodes (waiting_in_order table.now) }
{
    let mut marked = [false; MARKS];
    let mut ok = true;
    for k in 0..Table::NODES {
        let queue = queue_in_order(table, k);
        let differ = arrivals_differ(table, &mut marked, k);
        ok = ok & queue & differ;
    }
    ok
}
