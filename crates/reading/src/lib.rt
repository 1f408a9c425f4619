// Reading a plan opens a table and joins the entries in turn. Document 01, "Same tree, and the plan file", and document 02, (f).
#![tactic(auto)]

ghost use Rattle.std.specs.Prelude.{◌≡◌, pos, IfOk};
ghost use Rattle.answers.specs.Answers.{number_in, told};
ghost use Rattle.definitions.specs.Calls.{open_refusal};
ghost use Rattle.planformat.specs.Format.{plan_in};
ghost use Rattle.planlaws.specs.Reading.{opened_for, joined_for, plan_refusal, plan_table, plan_answer, check_answer};

use answers::Refusal;
use layout::{Format, bytes};
use table::{AccountTable, Table};
use view::View;

// Opens the table of a plan, and answers as open does.
fn open_plan(table: &mut [i64], view: View) -> Result<i64, Refusal>
    ensures number { number_in result ≡ open_refusal table.old (pos (plan_in view.entry.bytes.now).rate) (pos (plan_in view.entry.bytes.now).depth) }
    ensures table { table.new ≡ opened_for table.old (plan_in view.entry.bytes.now) }
{
    let head = forms::start_of(view.edition);
    let rate = numbers::whole(bytes::four(view.bytes, head + Format::DISK_RATE));
    let depth = numbers::whole(bytes::four(view.bytes, head + Format::ROOT_DEPTH));
    Table::open(table, rate, depth)
}

// Makes the table of a plan. Refused, the table is of no use.
pub fn build(table: &mut AccountTable, s: &[u8]) -> Result<(), Refusal>
    ensures number { number_in result ≡ plan_refusal table.old s.now }
    ensures table { IfOk result (λ _. table.new ≡ joined_for table.old (plan_in s.now)) }
{
    let view = View::read(s)?;
    open_plan(table, view)?;
    entering::join_entries(table, view)?;
    if entering::rising(table, view) {
        Ok(())
    } else {
        Err(Refusal::PlanOutOfOrder)
    }
}

// Whether a plan can be read into a table of right length, or why it is refused.
pub fn check(s: &[u8]) -> Result<(), Refusal>
    ensures { number_in result ≡ check_answer s.now }
{
    let mut built = [0i64; Table::LENGTH];
    build(&mut built, s)
}

// Reads a plan into a table and answers its edition. It is built in a table of its own and copied at the end, so that a refused
// one leaves the lent table as it came. Document 01, "Same tree, and the plan file", and document 02, (f).
pub fn read(table: &mut [i64], s: &[u8]) -> Result<i64, Refusal>
    ensures answer { told result ≡ plan_answer table.old s.now }
    ensures table { table.new ≡ plan_table table.old s.now }
{
    let Some(table) = table.as_mut_array() else {
        return Err(Refusal::NotInOrder);
    };
    let mut built = [0i64; Table::LENGTH];
    build(&mut built, s)?;
    *table = built;
    Ok(i64::from(forms::edition_in(s)))
}
