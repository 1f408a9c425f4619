// The windows of a timetable: four numbers each, node, start minute, end minute and share. Document 02, (h).
#![tactic(auto)]

ghost use Rattle.std.specs.Prelude.{◌≡◌, cond, ℕ, ◌+◌, ◌*◌, ◌<◌, length, get_or};
ghost use Rattle.numbers.specs.Whole.{plus};
ghost use Rattle.numbers.specs.Below.{all_below};
ghost use Rattle.definitions.specs.Limits.{nodes};
ghost use Rattle.definitions.specs.Tree.{tree_of};
ghost use Rattle.windows.specs.Alone.{alone};
ghost use Rattle.hourlaws.specs.Windows.{window_length, window_node_at, window_start_at, window_end_at, window_share_at, window_count, window_number, window_node, covers, window_formed, share_fits, shares_fit, share_in};

use table::{AccountTable, Table};

// Numbers of a window, and which is which.
pub const WINDOW: usize = 4;

pub const NODE: usize = 0;

pub const START: usize = 1;

pub const END: usize = 2;

pub const SHARE: usize = 3;

// Minutes of a week, which is the last end of a window.
pub const WEEK: u64 = 10080;

// Number p of window i.
#[tactic(auto, unfolding(hourlaws::specs::Windows::window_number))]
pub fn get(windows: &[i64], i: usize, p: usize) -> i64
    requires { window_length * i + p < length windows.now }
    ensures { result ≡ window_number windows.now i p }
{
    windows[WINDOW * i + p]
}

// The natural part of it.
pub fn number(windows: &[i64], i: usize, p: usize) -> u64
    requires { window_length * i + p < length windows.now }
    ensures { result ≡ plus (window_number windows.now i p) }
{
    numbers::natural(get(windows, i, p))
}

// The numbers of one window, right or not.
// Kept: the C interface needs it: a timetable is lent as plain numbers, and the definitions speak of a place in it.
#[derive(Clone, Copy)]
pub struct Window {
    pub node: i64,
    pub start: i64,
    pub end: i64,
    pub share: i64,
}

impl Window {
    // Window i.
    pub fn at(windows: &[i64], i: usize) -> Window
        requires { window_length * i + window_share_at < length windows.now }
        ensures node { result.node ≡ window_number windows.now i window_node_at }
        ensures start { result.start ≡ window_number windows.now i window_start_at }
        ensures end { result.end ≡ window_number windows.now i window_end_at }
        ensures share { result.share ≡ window_number windows.now i window_share_at }
    {
        Window {
            node: get(windows, i, NODE),
            start: get(windows, i, START),
            end: get(windows, i, END),
            share: get(windows, i, SHARE),
        }
    }

    // The natural parts of its numbers.
    pub fn natural_node(self) -> usize
        ensures { result ≡ plus self.node }
    {
        numbers::natural(self.node) as usize
    }

    pub fn natural_start(self) -> u64
        ensures { result ≡ plus self.start }
    {
        numbers::natural(self.start)
    }

    pub fn natural_end(self) -> u64
        ensures { result ≡ plus self.end }
    {
        numbers::natural(self.end)
    }

    pub fn natural_share(self) -> u64
        ensures { result ≡ plus self.share }
    {
        numbers::natural(self.share)
    }
}

// Whether a window is right for a plan's table.
fn window_formed(plan: &AccountTable, window: Window) -> bool
    ensures { result ≡ window_formed (tree_of plan.now) (alone window) 0 }
{
    let start = numbers::within(window.start, 0, WEEK);
    let end = numbers::within(window.end, 0, WEEK);
    let rises = window.natural_start() < window.natural_end();
    let node = numbers::within(window.node, 1, Table::LAST_NODE);
    if !node {
        return false;
    }
    let there = table::tree::there(plan, window.natural_node());
    start & end & rises & node & there
}

// Whether every window is.
#[tactic(auto, unfolding(hourlaws::specs::Windows::window_formed, hourlaws::specs::Windows::window_number))]
pub fn windows_formed(plan: &AccountTable, windows: &[i64]) -> bool
    ensures { result ≡ all_below (window_count windows.now) (window_formed (tree_of plan.now) windows.now) }
{
    numbers::all_below(
        windows.len() / WINDOW,
        |i| window_formed(plan, Window::at(windows, i)),
    )
}

// Whether a window's share is in the limits of its node's kind.
fn share_fits(plan: &AccountTable, window: Window) -> bool
    requires { plus window.node < nodes }
    ensures { result ≡ share_fits (tree_of plan.now) (alone window) 0 }
{
    let most = Table::share_limit(Table::natural(plan, window.natural_node(), Table::KIND));
    numbers::within(window.share, 1, most)
}

// Whether every window's share is.
#[tactic(auto, unfolding(hourlaws::specs::Windows::shares_fit, hourlaws::specs::Windows::share_fits, hourlaws::specs::Windows::window_number))]
pub fn shares_fit(plan: &AccountTable, windows: &[i64]) -> bool
    requires { (i : ℕ) → i < window_count windows.now → window_node windows.now i < nodes }
    ensures { result ≡ shares_fit (tree_of plan.now) windows.now }
{
    numbers::all_below(
        windows.len() / WINDOW,
        |i| share_fits(plan, Window::at(windows, i)),
    )
}

// Whether a window covers minute m for its node.
fn covers(window: Window, m: u64) -> bool
    ensures { result ≡ covers (alone window) 0 (plus window.node) m }
{
    let start = window.natural_start() <= m;
    let end = m < window.natural_end();
    start & end
}

// Writes the share that a window gives its node, where it covers minute m.
fn share_by(window: Window, m: u64, shares: &mut [u64; Table::NODES])
    requires { plus window.node < nodes }
    ensures { (k : ℕ) → k < nodes → get_or shares.new k 0 ≡ cond (covers (alone window) 0 k m) (plus window.share) (get_or shares.old k 0) }
{
    if covers(window, m) {
        shares[window.natural_node()] = window.natural_share();
    }
}

// Writes the plan's shares.
fn plan_shares(plan: &AccountTable, shares: &mut [u64; Table::NODES])
    ensures { (k : ℕ) → k < nodes → get_or shares.new k 0 ≡ (tree_of plan.now).share k }
{
    for (k, share) in shares.iter_mut().enumerate() {
        *share = Table::natural(plan, k, Table::SHARE);
    }
}

// Writes the share of each node at minute m.
pub fn shares_at(plan: &AccountTable, windows: &[i64], m: u64, shares: &mut [u64; Table::NODES])
    requires { (i : ℕ) → i < window_count windows.now → window_node windows.now i < nodes }
    ensures { (k : ℕ) → k < nodes → get_or shares.new k 0 ≡ share_in (tree_of plan.now) windows.now m k }
{
    plan_shares(plan, shares);
    for i in 0..windows.len() / WINDOW {
        share_by(Window::at(windows, i), m, shares);
    }
}
