// The cells of a part of the week, one for each node and each of the part's minutes, and the minutes at which shares can change.
#![tactic(auto)]

ghost use Rattle.std.specs.Prelude.{◌≡◌, false, ℕ, ◌+◌, ◌*◌, ◌-◌, ◌≤◌, ◌<◌, min, get_or, eqb};
ghost use Rattle.numbers.specs.Below.{all_below};
ghost use Rattle.definitions.specs.Limits.{nodes};
ghost use Rattle.hourlaws.specs.Windows.{window_count, turn};
ghost use Rattle.windows.specs.Alone.{alone};
ghost use Rattle.windows.specs.Timed.{Timed};
ghost use Rattle.cells.specs.Cells.{part_minutes, week_parts, cell_count, cell_at, cell_value, value_in, Filled, Ranged, reaches, clear_in, FilledBy, Marked, MarkedBy};

use std::ops::Range;
use table::Table;
use windows::Window;

// Minutes of a part, parts of the week, and cells of a part.
pub const PART: usize = 32;

pub const PARTS: usize = 315;

// Kept: fixed memory needs it: a cell is 0 for none, else a share and one; an Option would take twice the stack.
pub const CELLS: usize = Table::NODES * PART;

// Writes v into the cells of a range, and answers whether all of them were 0.
fn fill(cells: &mut [u64; CELLS], at: Range<usize>, v: u64) -> bool
    requires { (at.start ≤ at.end) × (at.end ≤ cell_count) }
    ensures { Filled cells.old cells.new at.start at.end v result }
{
    let mut clear = true;
    for cell in cells[at].iter_mut() {
        clear = clear & (*cell == 0);
        *cell = v;
    }
    clear
}

// How many minutes of the part that begins at `first` come before a minute.
fn before(minute: u64, first: u64) -> usize
    ensures { result ≡ min (minute - first) part_minutes }
{
    // Kept: tried, misses the speed: by saturating_sub set minute takes 8 per cent longer.
    if minute <= first {
        return 0;
    }
    (minute - first).min(PART as u64) as usize
}

// The cell of node k at minute j of the part.
pub fn cell_at(k: usize, j: usize) -> usize
    requires { (k < nodes) × (j ≤ part_minutes) }
    ensures { result ≡ cell_at k j }
{
    k * PART + j
}

// The cells of the minutes that a window covers.
#[tactic(auto, unfolding(hourlaws::specs::Windows::window_number))]
fn cover_of(window: Window, first: u64) -> Range<usize>
    requires { Timed (alone window) 0 }
    ensures { Ranged (alone window) 0 first result.start result.end }
{
    let k = window.natural_node();
    let from = before(window.natural_start(), first);
    let to = before(window.natural_end(), first);
    cell_at(k, from)..cell_at(k, to)
}

// What a window writes into its cells: its share and one more.
#[tactic(auto, unfolding(crate::specs::Cells::cell_value, hourlaws::specs::Windows::window_number))]
fn value_of(window: Window) -> u64
    ensures { result ≡ cell_value (alone window) 0 }
{
    window.natural_share().min(Table::GREATEST_RATE) + 1
}

// Fills the cells of the minutes that a window covers, and answers whether all of them were 0.
fn fill_window(cells: &mut [u64; CELLS], window: Window, first: u64) -> bool
    requires { Timed (alone window) 0 }
    ensures { FilledBy (alone window) first 0 cells.old cells.new result }
{
    fill(cells, cover_of(window, first), value_of(window))
}

// Marks a minute, where it is one of the part that begins at `first`.
fn mark(turns: &mut [bool; PART], minute: u64, first: u64)
    ensures { Marked first minute turns.old turns.new }
{
    if first <= minute && minute - first < PART as u64 {
        turns[(minute - first) as usize] = true;
    }
}

// Marks the start and the end of a window.
#[tactic(auto, unfolding(hourlaws::specs::Windows::window_number))]
fn mark_window(turns: &mut [bool; PART], window: Window, first: u64)
    ensures { MarkedBy (alone window) first 0 turns.old turns.new }
{
    mark(turns, window.natural_start(), first);
    mark(turns, window.natural_end(), first);
}

// Whether a window has a minute in the part that begins at `first`, or ends where it begins.
fn reaches(window: Window, first: u64) -> bool
    requires { first ≤ week_parts * part_minutes }
    ensures { result ≡ reaches (alone window) 0 first }
{
    let ends = first <= window.natural_end();
    let starts = window.natural_start() < first + PART as u64;
    ends & starts
}

// Fills the cells of a window and marks its start and end, where it reaches the part, and answers whether the cells that it covers were 0.
// Kept: the new form is no plainer: every method of a struct of cells, turns and first would have to say which of the three it leaves.
fn add_window(
    cells: &mut [u64; CELLS],
    turns: &mut [bool; PART],
    window: Window,
    first: u64,
) -> bool
    requires { Timed (alone window) 0 × (first ≤ week_parts * part_minutes) }
    ensures filled { FilledBy (alone window) first 0 cells.old cells.new result }
    ensures marked { MarkedBy (alone window) first 0 turns.old turns.new }
{
    if !reaches(window, first) {
        return true;
    }
    mark_window(turns, window, first);
    fill_window(cells, window, first)
}

// The same of every window, in turn: answers whether the cells that each covers were 0.
pub fn add_windows(
    cells: &mut [u64; CELLS],
    turns: &mut [bool; PART],
    windows: &[i64],
    first: u64,
) -> bool
    requires { ((i : ℕ) → i < window_count windows.now → Timed windows.now i) × (first ≤ week_parts * part_minutes) × ((k j : ℕ) → j < part_minutes → get_or cells.old (cell_at k j) 0 ≡ 0) × ((j : ℕ) → j < part_minutes → get_or turns.old j false ≡ eqb (first + j) 0) }
    ensures apart { result ≡ all_below (window_count windows.now) (clear_in windows.now first) }
    ensures cells { (k j : ℕ) → j < part_minutes → get_or cells.new (cell_at k j) 0 ≡ value_in windows.now (window_count windows.now) k (first + j) }
    ensures turns { (j : ℕ) → j < part_minutes → get_or turns.new j false ≡ turn windows.now (first + j) }
{
    let mut clear = true;
    for i in 0..windows.len() / windows::WINDOW {
        clear = clear & add_window(cells, turns, Window::at(windows, i), first);
    }
    clear
}
