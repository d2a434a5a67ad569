// Why a call is turned away, with its number; paper 01, "Where a call is turned away", and `specs/Refusals.antt`.
#[derive(Clone, Copy, PartialEq, Eq)]
pub enum Refusal {
    NoBook = 1,
    BadList = 2,
    BadValue = 3,
    UnknownToken = 4,
    AlreadyFinalized = 5,
    NotFinalized = 6,
    InvalidSubmission = 7,
    StaleVariant = 8,
    UnrequestedFee = 9,
    Full = 10,
    NoToken = 11,
    ShortBuffer = 12,
    NoArchive = 13,
}
