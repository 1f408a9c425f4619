// The shares of a timetable at every minute of the week. Document 02, (h).
#![tactic(auto)]

ghost use Rattle.std.specs.Prelude.{◌≡◌, ℕ, ◌+◌, ◌*◌, ◌≤◌, ◌<◌, get_or, leb};
ghost use Rattle.numbers.specs.Below.{all_below};
ghost use Rattle.definitions.specs.Limits.{nodes, kinds};
ghost use Rattle.definitions.specs.Tree.{tree_of};
ghost use Rattle.hourlaws.specs.Windows.{window_count};
ghost use Rattle.sums.specs.Sums.{sum_at, ShareSums};
ghost use Rattle.windows.specs.Timed.{Timed};
ghost use Rattle.cells.specs.Cells.{part_minutes, week_parts};
ghost use Rattle.week.specs.Week.{cell_share, cell_tree, Shared, Small, MinuteJudged, TurnJudged, TurnsJudged, PartJudged, WeekJudged};

use table::{AccountTable, Table};

// What the week shows: whether no two windows of a node overlap, whether the fixed shares are at most 10,000 under each class at
// every minute, and whether the stated rates are at most the disk's.
#[derive(Clone, Copy)]
pub struct Week {
    pub apart: bool,
    pub fixed: bool,
    pub stated: bool,
}

// Whether the fixed shares are at most 10,000 under each class, and whether the stated rates are at most the disk's.
#[derive(Clone, Copy)]
struct Within {
    fixed: bool,
    stated: bool,
}

// The share of node k at minute j of the part. The plan's is read before the cell is tested, so that the compiler can select.
fn share_at(plan: &AccountTable, part: &[u64; cells::CELLS], j: usize, k: usize) -> u64
    requires { (j < part_minutes) × (k < nodes) }
    ensures { result ≡ cell_share (tree_of plan.now) part.now j k }
{
    let share = Table::natural(plan, k, Table::SHARE);
    let cell = part[cells::cell_at(k, j)];
    if cell == 0 {
        return share;
    }
    cell - 1
}

// Adds the share of node k at minute j of the part, where it is there, to the sum of its kind under its class.
fn add_node(
    plan: &AccountTable,
    part: &[u64; cells::CELLS],
    j: usize,
    sums: &mut [u64; Table::SHARE_SUMS],
    k: usize,
)
    requires { Shared plan.now × Small part.now × (j < part_minutes) × (0 < k) × (k < nodes) × ShareSums (cell_tree (tree_of plan.now) part.now j) k sums.old }
    ensures { ShareSums (cell_tree (tree_of plan.now) part.now j) (k + 1) sums.new }
{
    if let Some(at) = sums::sum_of(plan, k) {
        sums[at] += share_at(plan, part, j, k);
    }
}

// The sums of each kind under all classes.
fn add_nodes(
    plan: &AccountTable,
    part: &[u64; cells::CELLS],
    j: usize,
    sums: &mut [u64; Table::SHARE_SUMS],
)
    requires { Shared plan.now × Small part.now × (j < part_minutes) × ShareSums (cell_tree (tree_of plan.now) part.now j) 1 sums.old }
    ensures { ShareSums (cell_tree (tree_of plan.now) part.now j) nodes sums.new }
{
    for k in 1..Table::NODES {
        add_node(plan, part, j, sums, k);
    }
}

// Whether no sum of one kind is above a limit.
fn sums_within(sums: &[u64; Table::SHARE_SUMS], kind: usize, limit: u64) -> bool
    requires { kind < kinds }
    ensures { result ≡ all_below nodes (λ c. leb (get_or sums.now (sum_at c kind) 0) limit) }
{
    numbers::all_below(Table::NODES, |c| sums[sums::sum_at(c, kind)] <= limit)
}

// Whether at minute j of the part the fixed shares and the stated rates are within their limits under each class.
fn judge_minute(plan: &AccountTable, part: &[u64; cells::CELLS], disk: u64, j: usize) -> Within
    requires { Shared plan.now × Small part.now × (j < part_minutes) }
    ensures { MinuteJudged (cell_tree (tree_of plan.now) part.now j) disk result.fixed result.stated }
{
    let mut sums = [0; Table::SHARE_SUMS];
    add_nodes(plan, part, j, &mut sums);
    let fixed = sums_within(&sums, Table::FIXED as usize, Table::WHOLE_SHARE);
    let stated = sums_within(&sums, Table::STATED as usize, disk);
    Within { fixed, stated }
}

// The same, where the minute is marked.
fn judge_turn(
    plan: &AccountTable,
    part: &[u64; cells::CELLS],
    turns: &[bool; cells::PART],
    disk: u64,
    j: usize,
) -> Within
    requires { Shared plan.now × Small part.now × (j < part_minutes) }
    ensures { TurnJudged (tree_of plan.now) part.now turns.now disk j result.fixed result.stated }
{
    if !turns[j] {
        return Within {
            fixed: true,
            stated: true,
        };
    }
    judge_minute(plan, part, disk, j)
}

// The same at each minute of the part that is marked.
fn judge_turns(
    plan: &AccountTable,
    part: &[u64; cells::CELLS],
    turns: &[bool; cells::PART],
    disk: u64,
) -> Within
    requires { Shared plan.now × Small part.now }
    ensures { TurnsJudged (tree_of plan.now) part.now turns.now disk part_minutes result.fixed result.stated }
{
    let mut fixed = true;
    let mut stated = true;
    for j in 0..cells::PART {
        let minute = judge_turn(plan, part, turns, disk, j);
        fixed = fixed & minute.fixed;
        stated = stated & minute.stated;
    }
    Within { fixed, stated }
}

// What the part of the week that begins at `first` shows.
fn judge_part(plan: &AccountTable, windows: &[i64], first: u64) -> Week
    requires { Shared plan.now × ((i : ℕ) → i < window_count windows.now → Timed windows.now i) × (first ≤ week_parts * part_minutes) }
    ensures { PartJudged plan.now windows.now first result.apart result.fixed result.stated }
{
    let mut part = [0; cells::CELLS];
    let mut turns = [false; cells::PART];
    turns[0] = first == 0;
    let apart = cells::add_windows(&mut part, &mut turns, windows, first);
    let within = judge_turns(plan, &part, &turns, Table::natural(plan, 0, Table::RATE));
    Week {
        apart,
        fixed: within.fixed,
        stated: within.stated,
    }
}

// What the week shows.
pub fn judge(plan: &AccountTable, windows: &[i64]) -> Week
    requires { Shared plan.now × ((i : ℕ) → i < window_count windows.now → Timed windows.now i) }
    ensures { WeekJudged plan.now windows.now result.apart result.fixed result.stated }
{
    let mut apart = true;
    let mut fixed = true;
    let mut stated = true;
    for n in 0..cells::PARTS {
        let part = judge_part(plan, windows, (n * cells::PART) as u64);
        apart = apart & part.apart;
        fixed = fixed & part.fixed;
        stated = stated & part.stated;
    }
    Week {
        apart,
        fixed,
        stated,
    }
}
