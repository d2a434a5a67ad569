// What a drain hands out, and what it retains for a new intent.
ghost use Rattle.std.specs.Prelude.{cond, ◌≡◌};
ghost use Rattle.book.specs.Sound.{is_attach};
ghost use Rattle.book.specs.declared.FeeResolution.TheVariants.{Unresolved, NotRequested};
ghost use Rattle.rules.specs.Parts.{current_fingerprint, intent_of};
ghost use Rattle.rules.specs.Steps.Entry.{new_entry};
ghost use Rattle.rules.specs.Steps.Slots.{token_in, handed as handed_out};

use crate::entry::{current_bundle, open_fee_intent};
use book::{
    FeeIntentKind, FeeResolution, OptionalAttempt, OptionalHash, PendingSubmissionIntent,
    RetainedIntent, SubmissionBroadcastVariant, SubmissionChainTerminality, SubmissionDeliveryGoal,
    SubmissionId, SubmissionState, SubmissionStatus, SubmittedEntry, Token,
};
use book_answers::DrainedSubmission;
use part_slots::relationship;

// Paper 01: an optional attempt is a mark with the attempt beside it.
// The token in a slot.
pub fn token_in(p: OptionalAttempt) -> Option<Token>
    ensures { result ≡ token_in p }
{
    if p.present {
        return Some(p.attempt.token);
    }
    None
}

// What is handed out for an entry that gets this token, with predecessor p. The fingerprint is that of its current variant.
pub fn handed(
    token: Token,
    goal: SubmissionDeliveryGoal,
    e: SubmittedEntry,
    p: OptionalAttempt,
    fingerprint: [u8; 32],
) -> DrainedSubmission
    requires { fingerprint ≡ current_fingerprint e }
    ensures { result ≡ handed_out token.0 goal e p }
{
    DrainedSubmission {
        id: e.id,
        attempt_token: token,
        predecessor_attempt_token: token_in(p),
        relationship: relationship(p, goal, fingerprint),
        bundle: current_bundle(e),
        expiry: e.state.status.expiry,
        fee_intent: open_fee_intent(e),
    }
}

// Only `Attach` leaves a fee to resolve.
fn first_resolution(k: FeeIntentKind) -> FeeResolution
    ensures { result ≡ cond (is_attach k) Unresolved NotRequested }
{
    match k {
        FeeIntentKind::AlreadyPaid => FeeResolution::NotRequested,
        FeeIntentKind::NoFeeConfigured => FeeResolution::NotRequested,
        FeeIntentKind::Attach => FeeResolution::Unresolved,
    }
}

// The submission that a candidate makes. The fingerprint is that of its intent.
pub fn new_entry(
    id: SubmissionId,
    p: PendingSubmissionIntent,
    fingerprint: [u8; 32],
) -> SubmittedEntry
    requires { fingerprint ≡ intent_of p }
    ensures { result ≡ new_entry id p }
{
    let status = SubmissionStatus {
        fee_resolution: first_resolution(p.fee_intent.kind),
        chain_terminality: SubmissionChainTerminality::Active,
        expiry: p.expiry,
    };
    let intent = RetainedIntent {
        intent_fingerprint: fingerprint,
        base_bundle: p.bundle,
        fee_intent: p.fee_intent,
    };
    let state = SubmissionState {
        current_variant: SubmissionBroadcastVariant::zero(),
        wallet_acknowledged_variant: OptionalHash::zero(),
        status,
    };
    SubmittedEntry { id, intent, state }
}
