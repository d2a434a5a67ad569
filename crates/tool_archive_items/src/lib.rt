// The items of an archive in their order (docs/ARCHIVE.md), and which of them starts at a place.
#![tactic(auto)]

pub mod order;

#[derive(Clone, Copy, PartialEq, Eq)]
pub enum Item {
    NumbersCount,
    NextToken,
    NextId,
    RetainedCount,
    Id,
    AttemptMark,
    AttemptToken,
    AttemptGoal,
    DrainedFingerprint,
    FinalizedMark,
    FinalizedFingerprint,
    IntentFingerprint,
    BundleCount,
    CoinLength,
    Coin,
    Digest,
    RunKind,
    OutputCount,
    PuzzleHash,
    Amount,
    FeeBundleMark,
    AppliedFee,
    DurableMark,
    FeeIntentKind,
    FeeTarget,
    FeeAmount,
    AcknowledgedMark,
    AcknowledgedFingerprint,
    Chain,
    ExpiryMark,
    Expiry,
    QueueCount,
    QueueIdMark,
    QueueId,
    Trigger,
    QueueGoal,
    RetirementCount,
    RetiredId,
    RollbackMark,
    RollbackHeight,
    ReplayedCount,
    ReplayedId,
    End,
}

// How the bytes of an item are read.
#[derive(Clone, Copy, PartialEq, Eq)]
pub enum Form {
    Byte,
    Number,
    Run,
    Nothing,
}

impl Item {
    pub fn form(self) -> Form {
        match self {
            Item::NextToken
            | Item::NextId
            | Item::Id
            | Item::AttemptToken
            | Item::Amount
            | Item::AppliedFee
            | Item::FeeAmount
            | Item::Expiry
            | Item::QueueId
            | Item::RetiredId
            | Item::RollbackHeight
            | Item::ReplayedId => Form::Number,
            Item::DrainedFingerprint
            | Item::FinalizedFingerprint
            | Item::IntentFingerprint
            | Item::Coin
            | Item::Digest
            | Item::PuzzleHash
            | Item::FeeTarget
            | Item::AcknowledgedFingerprint => Form::Run,
            Item::End => Form::Nothing,
            _ => Form::Byte,
        }
    }
}

// The place-th of so many, counted from 1.
#[derive(Clone, Copy, Default)]
pub struct Nth {
    pub place: u8,
    pub of: u8,
}

impl Nth {
    pub fn first(of: u8) -> Nth {
        Nth { place: 1, of }
    }

    pub fn next(self) -> Option<Nth> {
        if self.place < self.of {
            Some(Nth {
                place: self.place + 1,
                of: self.of,
            })
        } else {
            None
        }
    }
}

// Where in its section an item is. `second` tells the set-aside attempt from the live one, and the fee bundle from the base bundle.
#[derive(Clone, Copy, Default)]
pub struct Within {
    pub queue: bool,
    pub second: bool,
    pub entry: Nth,
    pub spend: Nth,
    pub output: Nth,
    pub coin_len: u8,
}

#[derive(Clone, Copy)]
pub struct Position {
    pub item: Item,
    pub within: Within,
}
