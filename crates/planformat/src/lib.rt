// The types of the code that the format of a plan speaks of; the format itself is defined in specs/.
#![tactic(auto)]

ghost use Rattle.std.specs.Prelude.{◌≡◌};
ghost use Rattle.planformat.specs.Numbers.{EditionGives, EditionGiven, kind_number, KindGiven};

// The editions of a plan.
#[derive(Clone, Copy, PartialEq, Eq)]
pub enum Edition {
    First,
    Second,
}

// Their numbers.
impl Edition {
    pub const FIRST: i64 = 1;

    pub const SECOND: i64 = 2;
}

impl From<Edition> for i64 {
    ghost from_gives = { EditionGives };

    #[tactic(auto, unfolding(crate::specs::Format::edition_number))]
    fn from(edition: Edition) -> i64 {
        match edition {
            Edition::First => Edition::FIRST,
            Edition::Second => Edition::SECOND,
        }
    }
}

// A number that no edition has.
#[derive(Clone, Copy, PartialEq, Eq)]
pub struct NoEdition(pub i64);

impl TryFrom<i64> for Edition {
    type Error = NoEdition;

    ghost try_from_gives = { EditionGiven };

    fn try_from(number: i64) -> Result<Edition, NoEdition> {
        match number {
            Edition::FIRST => Ok(Edition::First),
            Edition::SECOND => Ok(Edition::Second),
            _ => Err(NoEdition(number)),
        }
    }
}

// The kinds of a body.
#[derive(Clone, Copy, PartialEq, Eq)]
pub enum Kind {
    ClassFixed,
    ClassWeighted,
    ClientFixed,
    ClientWeighted,
    ClassStated,
    ClientStated,
}

// The bytes that tell them.
impl Kind {
    pub const CLASS_FIXED: u64 = 0;

    pub const CLASS_WEIGHTED: u64 = 1;

    pub const CLIENT_FIXED: u64 = 2;

    pub const CLIENT_WEIGHTED: u64 = 3;

    pub const CLASS_STATED: u64 = 4;

    pub const CLIENT_STATED: u64 = 5;
}

impl From<Kind> for u64 {
    ghost from_gives = { λ kind byte. byte ≡ kind_number kind };

    fn from(kind: Kind) -> u64 {
        match kind {
            Kind::ClassFixed => Kind::CLASS_FIXED,
            Kind::ClassWeighted => Kind::CLASS_WEIGHTED,
            Kind::ClientFixed => Kind::CLIENT_FIXED,
            Kind::ClientWeighted => Kind::CLIENT_WEIGHTED,
            Kind::ClassStated => Kind::CLASS_STATED,
            Kind::ClientStated => Kind::CLIENT_STATED,
        }
    }
}

// A byte that no kind has.
#[derive(Clone, Copy, PartialEq, Eq)]
pub struct NoKind(pub u64);

impl TryFrom<u64> for Kind {
    type Error = NoKind;

    ghost try_from_gives = { KindGiven };

    fn try_from(byte: u64) -> Result<Kind, NoKind> {
        match byte {
            Kind::CLASS_FIXED => Ok(Kind::ClassFixed),
            Kind::CLASS_WEIGHTED => Ok(Kind::ClassWeighted),
            Kind::CLIENT_FIXED => Ok(Kind::ClientFixed),
            Kind::CLIENT_WEIGHTED => Ok(Kind::ClientWeighted),
            Kind::CLASS_STATED => Ok(Kind::ClassStated),
            Kind::CLIENT_STATED => Ok(Kind::ClientStated),
            _ => Err(NoKind(byte)),
        }
    }
}

// A share of a class's rate, or a rate that is stated.
#[derive(Clone, Copy, PartialEq, Eq)]
pub enum Share {
    Fixed(u64),
    Weighted(u64),
    Stated(u64),
}

// A class or a client, with its share.
#[derive(Clone, Copy, PartialEq, Eq)]
pub enum Sort {
    Class(Share),
    Client(Share),
}

// What a plan says of one node.
#[derive(Clone, Copy, PartialEq, Eq)]
pub struct Node {
    pub number: u64,
    pub parent: u64,
    pub sort: Sort,
    pub depth: u64,
}
