// Nodes in their plan bytes and in their joins.
ghost use Rattle.std.specs.Prelude.{◌≡◌, ◌≤◌};
ghost use Rattle.definitions.specs.Limits.{client, stated};
ghost use Rattle.planformat.specs.Kinds.{client_stated};
ghost use Rattle.planformat.specs.Nodes.{share_in, share_kind_in, held_by, sort_in, kind_in};
ghost use Rattle.planformat.specs.Numbers.{kind_number};

use crate::{Kind, Share, Sort};
use table::Table;

// The sort and share of a kind.
#[tactic(auto, unfolding(planformat::specs::Kinds::kind_of, planformat::specs::Nodes::kind_in, planformat::specs::Nodes::sort_in, planformat::specs::Nodes::share_kind_in, planformat::specs::Nodes::share_in, planformat::specs::Nodes::held_by))]
pub fn sort_of(kind: Kind, share: u64) -> Sort
    ensures kind { kind_in result ≡ kind_number kind }
    ensures share { share_in (held_by result) ≡ share }
{
    match kind {
        Kind::ClassFixed => Sort::Class(Share::Fixed(share)),
        Kind::ClassWeighted => Sort::Class(Share::Weighted(share)),
        Kind::ClientFixed => Sort::Client(Share::Fixed(share)),
        Kind::ClientWeighted => Sort::Client(Share::Weighted(share)),
        Kind::ClassStated => Sort::Class(Share::Stated(share)),
        Kind::ClientStated => Sort::Client(Share::Stated(share)),
    }
}

// The share that a sort holds.
#[tactic(auto, unfolding(planformat::specs::Nodes::held_by))]
pub fn held_by(sort: Sort) -> Share
    ensures { result ≡ held_by sort }
{
    match sort {
        Sort::Class(share) | Sort::Client(share) => share,
    }
}

// A share's number, and the table's number of its kind.
#[tactic(auto, unfolding(planformat::specs::Nodes::share_in))]
pub fn share_in(share: Share) -> u64
    ensures { result ≡ share_in share }
{
    match share {
        Share::Fixed(n) | Share::Weighted(n) | Share::Stated(n) => n,
    }
}

#[tactic(auto, unfolding(planformat::specs::Nodes::share_kind_in))]
pub fn share_kind_in(share: Share) -> u64
    ensures kind { result ≡ share_kind_in share }
    ensures small { result ≤ stated }
{
    match share {
        Share::Fixed(_) => Table::FIXED,
        Share::Weighted(_) => Table::WEIGHTED,
        Share::Stated(_) => Table::STATED,
    }
}

// The table's number of a sort.
#[tactic(auto, unfolding(planformat::specs::Nodes::sort_in))]
pub fn sort_number(sort: Sort) -> u64
    ensures sort { result ≡ sort_in sort }
    ensures small { result ≤ client }
{
    match sort {
        Sort::Class(_) => Table::CLASS,
        Sort::Client(_) => Table::CLIENT,
    }
}

// The plan's kind of a sort.
#[tactic(auto, unfolding(planformat::specs::Kinds::kind_of, planformat::specs::Nodes::kind_in, planformat::specs::Nodes::sort_in, planformat::specs::Nodes::share_kind_in, planformat::specs::Nodes::held_by))]
pub fn kind_in(sort: Sort) -> Kind
    ensures kind { kind_number result ≡ kind_in sort }
    ensures small { kind_number result ≤ client_stated }
{
    match sort {
        Sort::Class(Share::Fixed(_)) => Kind::ClassFixed,
        Sort::Class(Share::Weighted(_)) => Kind::ClassWeighted,
        Sort::Class(Share::Stated(_)) => Kind::ClassStated,
        Sort::Client(Share::Fixed(_)) => Kind::ClientFixed,
        Sort::Client(Share::Weighted(_)) => Kind::ClientWeighted,
        Sort::Client(Share::Stated(_)) => Kind::ClientStated,
    }
}
