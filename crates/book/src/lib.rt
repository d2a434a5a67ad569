// The book as plain data. Names are those of the Rust where it has them.
// An optional part is a mark with its cell beside it, and a cell that a mark or a count leaves unused is zero;
// an optional number is an `Option`.
#![tactic(auto)]

pub mod refusal;
pub mod sound;
pub mod zero;

// An attempt token, a submission id and a height are types of their own, so that none is taken for another.
#[derive(Clone, Copy, PartialEq, Eq, PartialOrd, Ord)]
pub struct Token(pub u64);

#[derive(Clone, Copy, PartialEq, Eq, PartialOrd, Ord)]
pub struct SubmissionId(pub u64);

#[derive(Clone, Copy, PartialEq, Eq, PartialOrd, Ord)]
pub struct Height(pub u64);

// A coin that a spend makes.
#[derive(Clone, Copy)]
pub struct Output {
    pub puzzle_hash: [u8; 32],
    pub amount: u64,
}

// A spend: its coin string, the digest that stands for puzzle, solution and signature, and its run.
// Counts beside arrays, here and below: the book is one value of fixed size without a heap, as paper 01 has it.
#[derive(Clone, Copy)]
pub struct CoinSpend {
    pub coin_len: u8,
    pub coin: [u8; 73],
    pub digest: [u8; 32],
    pub readable: bool,
    pub output_count: u8,
    pub outputs: [Output; 4],
}

#[derive(Clone, Copy)]
pub struct SpendBundle {
    pub count: u8,
    pub spends: [CoinSpend; 4],
}

#[derive(Clone, Copy, PartialEq, Eq)]
pub enum FeeIntentKind {
    AlreadyPaid,
    NoFeeConfigured,
    Attach,
}

// `SubmissionFeeIntent`: target and amount are those of `Attach`.
// A kind with its values beside it is paper 01's form for an enum that holds an array.
#[derive(Clone, Copy)]
pub struct SubmissionFeeIntent {
    pub kind: FeeIntentKind,
    pub target: [u8; 32],
    pub amount: u64,
}

#[derive(Clone, Copy, PartialEq, Eq)]
pub enum SubmissionDeliveryGoal {
    EnsureBroadcast,
    FeeUpgrade,
}

#[derive(Clone, Copy, PartialEq, Eq)]
pub enum DeliveryTrigger {
    Protocol,
    FreshChain,
    Rollback,
    ProviderReadiness,
}

#[derive(Clone, Copy, PartialEq, Eq)]
pub enum SubmissionChainTerminality {
    Active,
    InputSpent,
    Landed,
}

// The Rust's `DurableFeeIntent` and `FeeResolution` in one mark.
#[derive(Clone, Copy, PartialEq, Eq)]
pub enum FeeResolution {
    Unresolved,
    NotRequested,
    Attached,
}

// Marks with a cell beside them, here, in `OptionalAttempt` and `SubmissionBroadcastVariant`: paper 01's form for an optional array.
#[derive(Clone, Copy)]
pub struct OptionalHash {
    pub present: bool,
    pub hash: [u8; 32],
}

#[derive(Clone, Copy)]
pub struct DeliveryAttempt {
    pub token: Token,
    pub goal: SubmissionDeliveryGoal,
    pub drained_variant_fingerprint: [u8; 32],
    pub finalized_variant_fingerprint: OptionalHash,
}

#[derive(Clone, Copy)]
pub struct OptionalAttempt {
    pub present: bool,
    pub attempt: DeliveryAttempt,
}

// The live slot and the set-aside slot of a submission.
#[derive(Clone, Copy)]
pub struct AttemptSlots {
    pub active_attempt: OptionalAttempt,
    pub completed_attempt: OptionalAttempt,
}

// `SubmissionBroadcastVariant`: `Base`, or `FeeBearing` with its bundle and applied fee.
#[derive(Clone, Copy)]
pub struct SubmissionBroadcastVariant {
    pub fee_bearing: bool,
    pub bundle: SpendBundle,
    pub applied_fee: u64,
}

// What is fixed when a submission is retained.
#[derive(Clone, Copy)]
pub struct RetainedIntent {
    pub intent_fingerprint: [u8; 32],
    pub base_bundle: SpendBundle,
    pub fee_intent: SubmissionFeeIntent,
}

// What is revised of a submission and is no array. The expiry comes first, so that no byte of padding stands before a mark.
#[derive(Clone, Copy)]
pub struct SubmissionStatus {
    pub expiry: Option<Height>,
    pub fee_resolution: FeeResolution,
    pub chain_terminality: SubmissionChainTerminality,
}

// What is revised of a submission.
#[derive(Clone, Copy)]
pub struct SubmissionState {
    pub current_variant: SubmissionBroadcastVariant,
    pub wallet_acknowledged_variant: OptionalHash,
    pub status: SubmissionStatus,
}

// A submission without its attempt slots.
#[derive(Clone, Copy)]
pub struct SubmittedEntry {
    pub id: SubmissionId,
    pub intent: RetainedIntent,
    pub state: SubmissionState,
}

#[derive(Clone, Copy)]
pub struct SubmittedTx {
    pub slots: AttemptSlots,
    pub entry: SubmittedEntry,
}

#[derive(Clone, Copy)]
pub struct PendingSubmissionIntent {
    pub id: Option<SubmissionId>,
    pub bundle: SpendBundle,
    pub expiry: Option<Height>,
    pub fee_intent: SubmissionFeeIntent,
}

#[derive(Clone, Copy)]
pub struct PendingDelivery {
    pub intent: PendingSubmissionIntent,
    pub trigger: DeliveryTrigger,
    pub goal: SubmissionDeliveryGoal,
}

// Up to N submission ids.
// A count beside an array, as in the book; the cells are bare numbers, as the lists of ids are that C lends, and tests go by slices of both.
#[derive(Clone, Copy)]
pub struct Ids<const N: usize> {
    pub count: usize,
    pub items: [u64; N],
}

#[derive(Clone, Copy)]
pub struct ReplayEpoch {
    pub rollback_height: Option<Height>,
    pub replayed_submission_ids: Ids<16>,
}

// The fields of the Rust's `SubmissionBook`.
#[derive(Clone, Copy)]
pub struct BookData {
    pub next_delivery_attempt_token: Token,
    pub next_submission_id: SubmissionId,
    pub submitted_count: usize,
    pub submitted: [SubmittedTx; 16],
    pub pending_count: usize,
    pub pending_deliveries: [PendingDelivery; 16],
    pub retired_submission_ids: Ids<64>,
    pub replay_epoch: ReplayEpoch,
}
