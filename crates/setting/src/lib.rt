// Set minute: the kinds of a plan and the shares that a timetable gives at a minute. Document 02, (h).
#![tactic(auto)]

ghost use Rattle.std.specs.Prelude.{◌≡◌, true, not, [], ◌∷◌, ℕ, ◌≤◌, ◌<◌, get_or, pos};
ghost use Rattle.numbers.specs.Whole.{within_ℤ};
ghost use Rattle.numbers.specs.Below.{all_below};
ghost use Rattle.definitions.specs.Limits.{nodes, greatest_rate};
ghost use Rattle.definitions.specs.Tree.{tree_of};
ghost use Rattle.definitions.specs.Order.{in_order};
ghost use Rattle.definitions.specs.Refusals.{cause, first, kept};
ghost use Rattle.definitions.specs.Calls.{reshared};
ghost use Rattle.answers.specs.Answers.{number_in, told};
ghost use Rattle.hourlaws.specs.Windows.{week_minutes, last_minute, window_count, window_node, shares_fit, share_in, tree_at};
ghost use Rattle.hourlaws.specs.SetMinute.{same_node, same_shape, reshared_as, timetable_refusal, minute_table, set_minute_table, set_minute_answer};
ghost use Rattle.setting.specs.Fitting.{fitting};

use answers::Refusal;
use order::Ordered;
use table::{AccountTable, Table};

// The last minute of the week.
const LAST_MINUTE: u64 = windows::WEEK - 1;

// Whether sort, parent and depth of node k are the same in both.
fn same_node(table: &AccountTable, plan: &AccountTable, k: usize) -> bool
    requires { k < nodes }
    ensures { result ≡ same_node table.now plan.now k }
{
    let sort = Table::same_place(table, plan, k, Table::SORT);
    let parent = Table::same_place(table, plan, k, Table::PARENT);
    let depth = Table::same_place(table, plan, k, Table::DEPTH);
    sort & parent & depth
}

// Whether they are of all nodes.
fn same_nodes(table: &AccountTable, plan: &AccountTable) -> bool
    ensures { result ≡ all_below nodes (same_node table.now plan.now) }
{
    numbers::all_below(Table::NODES, |k| same_node(table, plan, k))
}

// Whether a table has the plan's nodes, parents, sorts, depths and disk rate.
fn same_shape(table: &AccountTable, plan: &AccountTable) -> bool
    ensures { result ≡ same_shape table.now plan.now }
{
    let nodes = same_nodes(table, plan);
    let rate = Table::same_place(table, plan, 0, Table::RATE);
    nodes & rate
}

// Whether a table has the plan's shape, and a list is whole windows that are right for the plan.
fn fitting(table: &AccountTable, plan: &AccountTable, windows: &[i64]) -> bool
    ensures { result ≡ fitting table.now plan.now windows.now }
{
    let shape = same_shape(table, plan);
    let whole = windows.len() % windows::WINDOW == 0;
    let formed = windows::windows_formed(plan, windows);
    shape & whole & formed
}

// The first cause in the timetable that turns set minute back, once the list is whole windows that are right and their
// shares are in their limits.
fn week_refusal(table: &AccountTable, plan: Ordered<'_>, windows: &[i64]) -> Result<(), Refusal>
    requires { (fitting table.now plan.table.now windows.now ≡ true) × (shares_fit (tree_of plan.table.now) windows.now ≡ true) }
    ensures first { number_in result ≡ timetable_refusal table.now plan.entry.table.now windows.now }
{
    let week = week::judge(plan.table, windows);
    if !week.apart {
        return Err(Refusal::TimetableWrong);
    }
    if !week.fixed {
        return Err(Refusal::SharesAbove);
    }
    if !week.stated {
        return Err(Refusal::StatedWrong);
    }
    Ok(())
}

// The first cause in the timetable that turns set minute back.
fn timetable_refusal(
    table: &AccountTable,
    plan: Ordered<'_>,
    windows: &[i64],
) -> Result<(), Refusal>
    ensures first { number_in result ≡ timetable_refusal table.now plan.entry.table.now windows.now }
{
    if !fitting(table, plan.table, windows) {
        return Err(Refusal::TimetableWrong);
    }
    if windows::shares_fit(plan.table, windows) {
        return week_refusal(table, plan, windows);
    }
    let week = week::judge(plan.table, windows);
    if !week.apart {
        return Err(Refusal::TimetableWrong);
    }
    Err(Refusal::OutsideLimits)
}

// Gives node k the plan's kind, and its share of a list.
fn set_node(table: &mut AccountTable, plan: &AccountTable, shares: &[u64; Table::NODES], k: usize)
    requires { (k < nodes) × ((tree_of plan.now).kind k ≤ greatest_rate) × (get_or shares.now k 0 ≤ greatest_rate) }
    ensures { table.new ≡ reshared table.old k (pos ((tree_of plan.now).kind k)) (pos (get_or shares.now k 0)) }
{
    let kind = Table::natural(plan, k, Table::KIND);
    let share = shares[k];
    Table::put_natural(table, k, Table::KIND, kind);
    Table::put_natural(table, k, Table::SHARE, share);
}

// Gives each node its kind and share at minute m.
fn set_nodes(table: &mut AccountTable, plan: &AccountTable, windows: &[i64], m: u64)
    requires { ((i : ℕ) → i < window_count windows.now → window_node windows.now i < nodes) × ((k : ℕ) → k < nodes → ((tree_of plan.now).kind k ≤ greatest_rate) × (share_in (tree_of plan.now) windows.now m k ≤ greatest_rate)) }
    ensures { table.new ≡ reshared_as (tree_at (tree_of plan.now) windows.now m) table.old }
{
    let mut shares = [0; Table::NODES];
    windows::shares_at(plan, windows, m, &mut shares);
    for k in 0..Table::NODES {
        set_node(table, plan, &shares, k);
    }
}

// Set minute by a plan's table.
// Kept: an `order::Ordered` is no plainer here, since a writer would end the type's promise at its first write.
fn set_by(
    table: &mut AccountTable,
    plan: Ordered<'_>,
    windows: &[i64],
    m: u64,
) -> Result<(), Refusal>
    requires { (in_order table.old ≡ true) × (m < week_minutes) }
    ensures number { number_in result ≡ timetable_refusal table.old plan.entry.table.now windows.now }
    ensures table { table.new ≡ kept (timetable_refusal table.old plan.entry.table.now windows.now) (minute_table table.old plan.entry.table.now windows.now m) table.old }
{
    timetable_refusal(table, plan, windows)?;
    set_nodes(table, plan.table, windows, m);
    renewing::renew_below(table, 0);
    Ok(())
}

// The first cause that lies in the table or the minute.
fn early_refusal(table: &AccountTable, minute: i64) -> Result<(), Refusal>
    ensures first { number_in result ≡ first (cause 1 (not (in_order table.now)) ∷ cause 2 (not (within_ℤ 0 last_minute minute)) ∷ []) }
{
    order::judge(table)?;
    if !numbers::within(minute, 0, LAST_MINUTE) {
        return Err(Refusal::OutsideLimits);
    }
    Ok(())
}

// Gives every node but the root the plan's kind and its share at a minute of the week, and renews every rate. The plan is read into a
// table of its own. Document 02, (h).
pub fn set_minute(
    table: &mut [i64],
    plan: &[u8],
    windows: &[i64],
    minute: i64,
) -> Result<i64, Refusal>
    ensures answer { told result ≡ set_minute_answer table.old plan.now windows.now minute }
    ensures table { table.new ≡ set_minute_table table.old plan.now windows.now minute }
{
    let Some(table) = table.as_mut_array() else {
        return Err(Refusal::NotInOrder);
    };
    early_refusal(table, minute)?;
    let mut built = [0; Table::LENGTH];
    reading::build(&mut built, plan)?;
    set_by(
        table,
        Ordered { table: &built },
        windows,
        numbers::natural(minute),
    )?;
    Ok(0)
}
