// What the calls of a book answer, under the Rust's names. The rules speak of these types too, so that an answer stands once.
#![tactic(auto)]

ghost use Rattle.std.specs.Prelude.{◌≡◌};
ghost use Rattle.book_answers.specs.Source.{source_in};
ghost use Rattle.book_answers.specs.Zero.{zero_drained, zero_failure};

use book::{
    FeeResolution, Height, SpendBundle, SubmissionChainTerminality, SubmissionFeeIntent,
    SubmissionId, Token,
};

// ---- drain
// How an issued attempt stands to its predecessor.
#[derive(Clone, Copy, PartialEq, Eq)]
pub enum SubmissionAttemptRelationship {
    Initial,
    Exact,
    NewerFeeBearing,
    Other,
}

// What a drain hands out for a submission that gets a token.
#[derive(Clone, Copy)]
pub struct DrainedSubmission {
    pub id: SubmissionId,
    pub attempt_token: Token,
    pub predecessor_attempt_token: Option<Token>,
    pub relationship: SubmissionAttemptRelationship,
    pub bundle: SpendBundle,
    pub expiry: Option<Height>,
    pub fee_intent: SubmissionFeeIntent,
}

// Which of the plan's misses a failure is.
#[derive(Clone, Copy, PartialEq, Eq)]
pub enum DrainFailureCause {
    NoRetainedState,
    FeeIntentDiffers,
    InvalidRetainedState,
    IntentDiffers,
    IdCollides,
    OutputsUnreadable,
    IdsExhausted,
}

// The archive form always encodes, so `Fingerprint` does not occur.
#[derive(Clone, Copy, PartialEq, Eq)]
pub enum SubmissionDrainFailureStage {
    Fingerprint,
    RetainedState,
    ExpectedOutputs,
    SubmissionId,
}

// The index counts the queue as it was, from 0; the candidate id is always there.
#[derive(Clone, Copy)]
pub struct SubmissionDrainFailure {
    pub candidate_index: usize,
    pub cause: DrainFailureCause,
    pub candidate_id: SubmissionId,
    pub intent_fingerprint: [u8; 32],
}

// ---- attempts
#[derive(Clone, Copy, PartialEq, Eq)]
pub enum SubmissionAttemptStatus {
    Applied,
    Stale,
}

// `SubmissionFeeSource`: `Available` with its joined bundle, or with a join that failed. The joined bundle stands beside it.
// It holds no bundle, as the kind of a fee intent holds no target: paper 01's form for an enum with an array.
#[derive(Clone, Copy, PartialEq, Eq)]
pub enum SubmissionFeeSource {
    NotRequested,
    Joined,
    JoinFailed,
    Failed,
}

impl SubmissionFeeSource {
    // 0 not requested, 1 joined, 2 a join that failed, 3 failed: the number that C and the scripts hand over.
    pub fn from_number(n: u8) -> Option<SubmissionFeeSource>
        ensures { result ≡ source_in n }
    {
        match n {
            0 => Some(SubmissionFeeSource::NotRequested),
            1 => Some(SubmissionFeeSource::Joined),
            2 => Some(SubmissionFeeSource::JoinFailed),
            3 => Some(SubmissionFeeSource::Failed),
            _ => None,
        }
    }
}

#[derive(Clone, Copy, PartialEq, Eq)]
pub enum FeeSourceDisposition {
    Attached,
    Unused,
    NotRequested,
}

#[derive(Clone, Copy)]
pub struct FinalizedSubmission {
    pub bundle: SpendBundle,
    pub applied_fee: u64,
    pub warning: bool,
    pub disposition: FeeSourceDisposition,
    pub variant_fingerprint: [u8; 32],
    pub should_broadcast: bool,
}

// ---- looks
// What a retained submission holds besides its bundles; acknowledged is its current variant, and the tokens are of its live attempt and
// of the one that is set aside.
#[derive(Clone, Copy)]
pub struct SubmissionLook {
    pub expiry: Option<Height>,
    pub active_attempt_token: Option<Token>,
    pub completed_attempt_token: Option<Token>,
    pub applied_fee: u64,
    pub fee_resolution: FeeResolution,
    pub chain_terminality: SubmissionChainTerminality,
    pub acknowledged: bool,
}

// The numbers of a book, and how many entries its lists have.
#[derive(Clone, Copy)]
pub struct BookSummary {
    pub next_delivery_attempt_token: Token,
    pub next_submission_id: SubmissionId,
    pub submitted_count: usize,
    pub pending_count: usize,
    pub retired_count: usize,
    pub replayed_count: usize,
    pub rollback_height: Option<Height>,
}

// ---- the unused cell of each
impl DrainedSubmission {
    #[tactic(auto, unfolding(crate::specs::Zero::zero_drained))]
    pub fn zero() -> DrainedSubmission
        ensures { result ≡ zero_drained }
    {
        DrainedSubmission {
            id: SubmissionId(0),
            attempt_token: Token(0),
            predecessor_attempt_token: None,
            relationship: SubmissionAttemptRelationship::Initial,
            bundle: SpendBundle::zero(),
            expiry: None,
            fee_intent: SubmissionFeeIntent::zero(),
        }
    }
}

impl SubmissionDrainFailure {
    #[tactic(auto, unfolding(crate::specs::Zero::zero_failure))]
    pub fn zero() -> SubmissionDrainFailure
        ensures { result ≡ zero_failure }
    {
        SubmissionDrainFailure {
            candidate_index: 0,
            cause: DrainFailureCause::NoRetainedState,
            candidate_id: SubmissionId(0),
            intent_fingerprint: [0; 32],
        }
    }
}
