// What a drain answers: the submissions handed out and the candidates that failed.
#![tactic(auto)]

ghost use Rattle.std.specs.Prelude.{◌≡◌};
ghost use Rattle.rules.specs.Call.{removes, retained_id, stage_of as stageBy};

use book::SubmissionId;
use book_answers::{
    DrainFailureCause, DrainedSubmission, SubmissionDrainFailure, SubmissionDrainFailureStage,
};

// Counts beside arrays: the library has no heap.
// What a drain hands out: the first `submission_count` cells and the first `failure_count`.
#[derive(Clone, Copy)]
pub struct Drained {
    pub submission_count: usize,
    pub submissions: [DrainedSubmission; 16],
    pub failure_count: usize,
    pub failures: [SubmissionDrainFailure; 16],
}

pub fn stage_of(cause: DrainFailureCause) -> SubmissionDrainFailureStage
    ensures { result ≡ stageBy cause }
{
    match cause {
        DrainFailureCause::NoRetainedState
        | DrainFailureCause::FeeIntentDiffers
        | DrainFailureCause::InvalidRetainedState
        | DrainFailureCause::IntentDiffers => SubmissionDrainFailureStage::RetainedState,
        DrainFailureCause::IdCollides | DrainFailureCause::IdsExhausted => {
            SubmissionDrainFailureStage::SubmissionId
        }
        DrainFailureCause::OutputsUnreadable => SubmissionDrainFailureStage::ExpectedOutputs,
    }
}

// The failures that remove their submission.
fn is_removal(cause: DrainFailureCause) -> bool
    ensures { result ≡ removes cause }
{
    matches!(
        cause,
        DrainFailureCause::FeeIntentDiffers
            | DrainFailureCause::InvalidRetainedState
            | DrainFailureCause::IntentDiffers
    )
}

// `retained_submission_id`.
pub fn retained_id(f: SubmissionDrainFailure) -> Option<SubmissionId>
    ensures { result ≡ retained_id f }
{
    if is_removal(f.cause) {
        return Some(f.candidate_id);
    }
    None
}
