// What a call answers: a value, or why it is refused; and the numbers of the refusals.
#![tactic(auto)]

ghost use Rattle.std.specs.Prelude.{◌≡◌, ◌≤◌};
ghost use Rattle.definitions.specs.Refusals.{last_refusal};
ghost use Rattle.answers.specs.Answers.{number_of, number_in, Numbered};

// The causes of refusal, in the order of their numbers.
#[derive(Clone, Copy, PartialEq, Eq)]
pub enum Refusal {
    NotInOrder,
    OutsideLimits,
    NotThere,
    InUse,
    WrongNode,
    LevelTooLow,
    SharesAbove,
    DepthAbove,
    NotEmpty,
    InDebt,
    QueueFull,
    CountAtEnd,
    BufferShort,
    PlanWrong,
    PlanOutOfOrder,
    StatedWrong,
    TimetableWrong,
}

// Their numbers.
impl Refusal {
    pub const NOT_IN_ORDER: u64 = 1;

    pub const OUTSIDE_LIMITS: u64 = 2;

    pub const NOT_THERE: u64 = 3;

    pub const IN_USE: u64 = 4;

    pub const WRONG_NODE: u64 = 5;

    pub const LEVEL_TOO_LOW: u64 = 6;

    pub const SHARES_ABOVE: u64 = 7;

    pub const DEPTH_ABOVE: u64 = 8;

    pub const NOT_EMPTY: u64 = 9;

    pub const IN_DEBT: u64 = 10;

    pub const QUEUE_FULL: u64 = 11;

    pub const COUNT_AT_END: u64 = 12;

    pub const BUFFER_SHORT: u64 = 13;

    pub const PLAN_WRONG: u64 = 14;

    pub const PLAN_OUT_OF_ORDER: u64 = 15;

    pub const STATED_WRONG: u64 = 16;

    pub const TIMETABLE_WRONG: u64 = 17;
}

// What tick answers: how many were dispatched to the first port and to the second.
#[derive(Clone, Copy)]
pub struct Dispatched {
    pub first: i64,
    pub second: i64,
}

// What look answers.
#[derive(Clone, Copy)]
pub struct Seen {
    pub rate: i64,
    pub balance: i64,
    pub waiting: i64,
    pub lost: i64,
}

// The number of a refusal.
// Kept: the C interface needs it: a refusal leaves the code as its number.
pub fn number_of(why: Refusal) -> u64
    ensures number { result ≡ number_of why }
    ensures small { result ≤ last_refusal }
{
    match why {
        Refusal::NotInOrder => Refusal::NOT_IN_ORDER,
        Refusal::OutsideLimits => Refusal::OUTSIDE_LIMITS,
        Refusal::NotThere => Refusal::NOT_THERE,
        Refusal::InUse => Refusal::IN_USE,
        Refusal::WrongNode => Refusal::WRONG_NODE,
        Refusal::LevelTooLow => Refusal::LEVEL_TOO_LOW,
        Refusal::SharesAbove => Refusal::SHARES_ABOVE,
        Refusal::DepthAbove => Refusal::DEPTH_ABOVE,
        Refusal::NotEmpty => Refusal::NOT_EMPTY,
        Refusal::InDebt => Refusal::IN_DEBT,
        Refusal::QueueFull => Refusal::QUEUE_FULL,
        Refusal::CountAtEnd => Refusal::COUNT_AT_END,
        Refusal::BufferShort => Refusal::BUFFER_SHORT,
        Refusal::PlanWrong => Refusal::PLAN_WRONG,
        Refusal::PlanOutOfOrder => Refusal::PLAN_OUT_OF_ORDER,
        Refusal::StatedWrong => Refusal::STATED_WRONG,
        Refusal::TimetableWrong => Refusal::TIMETABLE_WRONG,
    }
}

impl From<Refusal> for u64 {
    ghost from_gives = { λ why n. (n ≡ number_of why) × (n ≤ last_refusal) };

    fn from(refusal: Refusal) -> u64 {
        number_of(refusal)
    }
}

// A number that no refusal has.
#[derive(Clone, Copy, PartialEq, Eq)]
pub struct NoRefusal(pub u64);

impl TryFrom<u64> for Refusal {
    type Error = NoRefusal;

    ghost try_from_gives = { Numbered };

    fn try_from(number: u64) -> Result<Refusal, NoRefusal> {
        match number {
            Refusal::NOT_IN_ORDER => Ok(Refusal::NotInOrder),
            Refusal::OUTSIDE_LIMITS => Ok(Refusal::OutsideLimits),
            Refusal::NOT_THERE => Ok(Refusal::NotThere),
            Refusal::IN_USE => Ok(Refusal::InUse),
            Refusal::WRONG_NODE => Ok(Refusal::WrongNode),
            Refusal::LEVEL_TOO_LOW => Ok(Refusal::LevelTooLow),
            Refusal::SHARES_ABOVE => Ok(Refusal::SharesAbove),
            Refusal::DEPTH_ABOVE => Ok(Refusal::DepthAbove),
            Refusal::NOT_EMPTY => Ok(Refusal::NotEmpty),
            Refusal::IN_DEBT => Ok(Refusal::InDebt),
            Refusal::QUEUE_FULL => Ok(Refusal::QueueFull),
            Refusal::COUNT_AT_END => Ok(Refusal::CountAtEnd),
            Refusal::BUFFER_SHORT => Ok(Refusal::BufferShort),
            Refusal::PLAN_WRONG => Ok(Refusal::PlanWrong),
            Refusal::PLAN_OUT_OF_ORDER => Ok(Refusal::PlanOutOfOrder),
            Refusal::STATED_WRONG => Ok(Refusal::StatedWrong),
            Refusal::TIMETABLE_WRONG => Ok(Refusal::TimetableWrong),
            _ => Err(NoRefusal(number)),
        }
    }
}

// The refusal of a number that one has.
pub fn refusal_of(number: u64) -> Refusal
    requires { (1 ≤ number) × (number ≤ last_refusal) }
    ensures { number_of result ≡ number }
{
    match Refusal::try_from(number) {
        Ok(refusal) => refusal,
        Err(_) => unreachable!(),
    }
}

// The number of the refusal in an answer, or 0.
// Kept: the C interface needs it: plan check answers the number, or 0.
#[tactic(auto, unfolding(crate::specs::Answers::number_in))]
pub fn number_told<T: Drop>(answer: Result<T, Refusal>) -> u64
    ensures number { result ≡ number_in answer }
    ensures small { result ≤ last_refusal }
{
    match answer {
        Ok(_) => 0,
        Err(why) => number_of(why),
    }
}
