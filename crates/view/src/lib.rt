// The view of a plan. Document 01, "Same tree, and the plan file", and document 02, (f): a plan of either edition has its
// contents first, then the bodies. Few functions are over the view. `listed_at` and `body_of` take plain bytes, and serve
// callers that have no view.
#![tactic(auto)]

ghost use Rattle.std.specs.Prelude.{◌≡◌, true, false, ◌<◌, MatchResult};
ghost use Rattle.answers.specs.declared.Refusal.TheVariants.{PlanWrong};
ghost use Rattle.planformat.specs.Bytes.{byte_values, four_values};
ghost use Rattle.planformat.specs.Nodes.{share_in, held_by, entry_by};
ghost use Rattle.planformat.specs.Format.{share_values, edition_in, count_in, entry_in, formed};
ghost use Rattle.view.specs.Views.{Views, EntryAt, BodyAt};
ghost use Rattle.view.specs.Answer.{body_answer, told_found};

use answers::Refusal;
use layout::{Edition, Format, Node, Sort, bytes};

// What an entry says: a node and its parent. Where its body stands follows from the edition and the count of entries.
#[derive(Clone, Copy)]
pub struct Entry {
    pub number: u64,
    pub parent: u64,
}

// What a body says: a class or a client with its share, and the depth.
#[derive(Clone, Copy)]
pub struct Body {
    pub sort: Sort,
    pub depth: u64,
}

// An entry with its body.
#[derive(Clone, Copy)]
pub struct Listed {
    pub entry: Entry,
    pub body: Body,
}

// A plan's bytes, their edition, and how many entries they have.
#[derive(Clone, Copy)]
pub struct View<'a> {
    pub bytes: &'a [u8],
    pub edition: Edition,
    pub count: usize,
    pub ghost views: { Views bytes.now edition count },
}

impl<'a> View<'a> {
    // The view of a plan's bytes.
    pub fn of(bytes: &'a [u8]) -> View<'a>
        requires { formed bytes.now ≡ true }
        ensures { (result.bytes ≡ bytes.entry) × (result.edition ≡ edition_in bytes.now) × (result.count ≡ count_in bytes.now) }
    {
        let edition = forms::edition_in(bytes);
        View {
            bytes,
            edition,
            count: forms::count_in(bytes, edition),
        }
    }

    // The view of bytes, where they are a plan's.
    pub fn read(bytes: &'a [u8]) -> Result<View<'a>, Refusal>
        ensures { MatchResult result (λ view. view.bytes ≡ bytes.entry) (λ why. (why ≡ PlanWrong) × (formed bytes.now ≡ false)) }
    {
        if forms::formed(bytes) {
            Ok(View::of(bytes))
        } else {
            Err(Refusal::PlanWrong)
        }
    }

    // Entry i.
    pub fn entry(self, i: usize) -> Entry
        requires { i < self.count }
        ensures told { EntryAt self.entry.bytes.now i result }
        ensures small { (result.number < byte_values) × (result.parent < byte_values) }
    {
        let at = forms::entry_at(self.edition, i);
        let number = bytes::byte(self.bytes, at);
        let parent = bytes::byte(self.bytes, at + Format::ENTRY_PARENT);
        Entry { number, parent }
    }

    // The body of entry i.
    #[tactic(auto, unfolding(planformat::specs::Nodes::entry_by))]
    pub fn body(self, i: usize) -> Body
        requires { i < self.count }
        ensures told { BodyAt self.entry.bytes.now i result }
        ensures small { (share_in (held_by result.sort) < share_values self.entry.edition) × (result.depth < four_values) }
    {
        let node = self.node(i);
        Body {
            sort: node.sort,
            depth: node.depth,
        }
    }

    // The node of entry i and its body.
    pub fn node(self, i: usize) -> Node
        requires { i < self.count }
        ensures entry { entry_by result ≡ entry_in self.entry.bytes.now i }
        ensures small { (result.number < byte_values) × (result.parent < byte_values) × (share_in (held_by result.sort) < share_values self.entry.edition) × (result.depth < four_values) }
    {
        forms::node_at(self.bytes, self.edition, self.count, i)
    }
}

// Entry i of a plan with its body, for callers that have the plain bytes.
pub fn listed_at(bytes: &[u8], i: usize) -> Listed
    requires { (formed bytes.now ≡ true) × (i < count_in bytes.now) }
    ensures { EntryAt bytes.now i result.entry × BodyAt bytes.now i result.body }
{
    let view = View::of(bytes);
    Listed {
        entry: view.entry(i),
        body: view.body(i),
    }
}

// The body that a plan lists for a node, or none where it does not list the node.
#[tactic(auto, using(crate::proofs::Listing::answer_no_plan), unfolding(crate::specs::Answer::told_found))]
pub fn body_of(bytes: &[u8], number: u64) -> Result<Option<Body>, Refusal>
    ensures { told_found result ≡ body_answer bytes.now number }
{
    let view = View::read(bytes)?;
    for i in 0..view.count {
        if view.entry(i).number == number {
            return Ok(Some(view.body(i)));
        }
    }
    Ok(None)
}
