// How a load begins: the reading of its input. Document 02, (d).
#![tactic(auto)]

ghost use Rattle.std.specs.Prelude.{◌≡◌, ◌≤◌, length};
ghost use Rattle.definitions.specs.Calls.{blank};
ghost use Rattle.answers.specs.Answers.{number_in};
ghost use Rattle.text.specs.Text.{longest_refused};
ghost use Rattle.text.specs.Appended.{SameBuffer};
ghost use Rattle.asking.specs.Asking.{load_of};
ghost use Rattle.loadformat.specs.Text.{load_refusal, begun};
ghost use Rattle.loadformat.specs.Parts.{Begins};

use answers::Refusal;
use layout::bytes;
use loadformat::Progress;
use text::LentText;

// Where the parts of the input stand.
const SEED_AT: usize = 0;

const TICKS_AT: usize = 4;

const PLAN_AT: usize = 8;

// Reads the plan of an input.
// Kept: the new form is no plainer: it asks for a table of zeros, which has the right length.
#[tactic(auto, using(loadformat::proofs::Inputs::short_refused), unfolding(answers::specs::Answers::number_in))]
fn read_input(table: &mut [i64], input: &[u8]) -> Result<(), Refusal>
    requires { table.old ≡ blank }
    ensures number { number_in result ≡ load_refusal input.now }
    ensures table { number_in result ≡ 0 → table.new ≡ (begun input.now).table }
{
    if input.len() < PLAN_AT {
        return Err(Refusal::PlanWrong);
    }
    reading::read(table, &input[PLAN_AT..])?;
    Ok(())
}

// Makes a load ready for an input, and its text what stands before the first tick.
pub fn begin(text: &mut LentText, table: &mut [i64], input: &[u8]) -> Progress
    requires { (longest_refused ≤ length text.old.bytes.now) × (table.old ≡ blank) }
    ensures begins { Begins input.now text.old.bytes.now (load_of table.new result.state) result.made result.ticks text.new.len text.new.bytes.now }
    ensures same { SameBuffer text.old text.new }
{
    text.clear();
    if let Err(why) = read_input(table, input) {
        let number = u64::from(why);
        text.put_refused(number);
        return Progress {
            state: 0,
            made: 0,
            ticks: 0,
        };
    }
    let state = bytes::four(input, SEED_AT) as u32;
    let ticks = bytes::four(input, TICKS_AT);
    Progress {
        state,
        made: 0,
        ticks,
    }
}
