// What is asked of a submission, a fee intent or an expiry.
ghost use Rattle.std.specs.Prelude.{◌≡◌};
ghost use Rattle.rules.specs.Parts.{min_expiry, same_fee_intent, current_bundle, current_applied_fee, fee_unresolved, open_fee_intent, active_entry, holds_hash};

use book::{
    FeeResolution, Height, OptionalHash, SpendBundle, SubmissionChainTerminality,
    SubmissionFeeIntent, SubmittedEntry,
};

pub fn min_expiry(a: Option<Height>, b: Option<Height>) -> Option<Height>
    ensures { result ≡ min_expiry a b }
{
    match (a, b) {
        (Some(g), Some(h)) => Some(g.min(h)),
        _ => a.or(b),
    }
}

// Field by field: one line a field, as a derive would write, and the contract names each.
pub fn same_fee_intent(a: SubmissionFeeIntent, b: SubmissionFeeIntent) -> bool
    ensures { result ≡ same_fee_intent a b }
{
    (a.kind == b.kind) & (a.amount == b.amount) & (a.target == b.target)
}

// Paper 01: a fee bundle or an optional digest is a mark with its cell beside it; `fee_bearing` and `present` are asked, here and below.
pub fn current_bundle(e: SubmittedEntry) -> SpendBundle
    ensures { result ≡ current_bundle e }
{
    if e.state.current_variant.fee_bearing {
        e.state.current_variant.bundle
    } else {
        e.intent.base_bundle
    }
}

pub fn current_applied_fee(e: SubmittedEntry) -> u64
    ensures { result ≡ current_applied_fee e }
{
    if e.state.current_variant.fee_bearing {
        e.state.current_variant.applied_fee
    } else {
        0
    }
}

pub fn fee_unresolved(e: SubmittedEntry) -> bool
    ensures { result ≡ fee_unresolved e }
{
    e.state.status.fee_resolution == FeeResolution::Unresolved
}

// The unresolved fee intent, or `AlreadyPaid`.
pub fn open_fee_intent(e: SubmittedEntry) -> SubmissionFeeIntent
    ensures { result ≡ open_fee_intent e }
{
    if fee_unresolved(e) {
        return e.intent.fee_intent;
    }
    SubmissionFeeIntent::zero()
}

pub fn active_entry(e: SubmittedEntry) -> bool
    ensures { result ≡ active_entry e }
{
    e.state.status.chain_terminality == SubmissionChainTerminality::Active
}

// The fingerprint is there, and it is this one.
pub fn holds_hash(h: OptionalHash, f: [u8; 32]) -> bool
    ensures { result ≡ holds_hash h f }
{
    h.present & (h.hash == f)
}
