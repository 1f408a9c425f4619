// Writing the plan of a table. Document 01, "Same tree, and the plan file", and document 02, (f).
#![tactic(auto)]

ghost use Rattle.std.specs.Prelude.{◌≡◌, false, MatchResult};
ghost use Rattle.numbers.specs.Whole.{within_ℤ};
ghost use Rattle.definitions.specs.Order.{in_order};
ghost use Rattle.answers.specs.declared.Refusal.TheVariants.{OutsideLimits};
ghost use Rattle.answers.specs.Answers.{told};
ghost use Rattle.planformat.specs.Format.{first_edition, second_edition};
ghost use Rattle.planformat.specs.Numbers.{EditionFound};
ghost use Rattle.planlaws.specs.Writing.{write_buffer, write_answer};

use answers::Refusal;
use layout::Edition;
use planparts::Contents;

// Whether the table is in order: exactly then look finds the root.
fn in_order(table: &[i64]) -> bool
    ensures { result ≡ in_order table.now }
{
    accounts::look(table, 0).is_ok()
}

// The edition of a number.
fn edition_of(number: i64) -> Result<Edition, Refusal>
    ensures { MatchResult result (λ edition. EditionFound number edition) (λ why. (why ≡ OutsideLimits) × (within_ℤ first_edition second_edition number ≡ false)) }
{
    match Edition::try_from(number) {
        Ok(edition) => Ok(edition),
        Err(_) => Err(Refusal::OutsideLimits),
    }
}

// Writes the plan of a table into a buffer, in edition 1 or 2, and answers its length. Document 01, "Same tree, and the plan
// file", and document 02, (f).
// Kept: the C interface needs it: the edition is a number, and refusal 2 comes after 1 and before 13.
pub fn write(table: &[i64], edition: i64, buffer: &mut [u8]) -> Result<i64, Refusal>
    ensures answer { told result ≡ write_answer table.now edition buffer.old }
    ensures buffer { buffer.new ≡ write_buffer table.now edition buffer.old }
{
    if !in_order(table) {
        return Err(Refusal::NotInOrder);
    }
    let Some(table) = table.as_array() else {
        return Err(Refusal::NotInOrder);
    };
    let edition = edition_of(edition)?;
    let listing = listing::list_nodes(table);
    let nodes = listing.nodes();
    let length = forms::plan_length(edition, nodes.len());
    if buffer.len() < length {
        return Err(Refusal::BufferShort);
    }
    if listing::unwritable(table, edition) {
        return Err(Refusal::StatedWrong);
    }
    let contents = Contents {
        table,
        edition,
        nodes,
    };
    contents.put_plan(buffer);
    Ok(numbers::whole(length as u64))
}
