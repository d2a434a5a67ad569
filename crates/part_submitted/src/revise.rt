// What a call changes of a submission: one function for each revision of the rules.
ghost use Rattle.std.specs.Prelude.{true, ◌≡◌};
ghost use Rattle.book.specs.Sound.{sound_bundle};
ghost use Rattle.rules.specs.Rule.{tighten as tightened, acknowledge as acknowledged, attach as attachedTo, terminality, reopen as reopened};
ghost use Rattle.rules.specs.Steps.Entry.{revised};

use crate::entry::min_expiry;
use book::{
    FeeResolution, Height, OptionalHash, SpendBundle, SubmissionBroadcastVariant,
    SubmissionChainTerminality, SubmittedEntry,
};

// The expiry becomes the smaller one present.
pub fn tighten(mut e: SubmittedEntry, expiry: Option<Height>) -> SubmittedEntry
    ensures { result ≡ revised (tightened expiry) e }
{
    e.state.status.expiry = min_expiry(e.state.status.expiry, expiry);
    e
}

// Paper 01: an optional digest, here, and a fee bundle, in `attach`, is a mark with its cell beside it.
// The variant with this fingerprint is acknowledged.
pub fn acknowledge(mut e: SubmittedEntry, fingerprint: [u8; 32]) -> SubmittedEntry
    ensures { result ≡ revised (acknowledged fingerprint) e }
{
    e.state.wallet_acknowledged_variant = OptionalHash {
        present: true,
        hash: fingerprint,
    };
    e
}

// The joined bundle is the variant from here on, with the fee that was asked for.
pub fn attach(mut e: SubmittedEntry, joined: SpendBundle) -> SubmittedEntry
    requires { sound_bundle joined ≡ true }
    ensures { result ≡ revised (attachedTo joined) e }
{
    e.state.current_variant = SubmissionBroadcastVariant {
        fee_bearing: true,
        bundle: joined,
        applied_fee: e.intent.fee_intent.amount,
    };
    e.state.status.fee_resolution = FeeResolution::Attached;
    e
}

pub fn with_terminality(mut e: SubmittedEntry, c: SubmissionChainTerminality) -> SubmittedEntry
    ensures { result ≡ revised (terminality c) e }
{
    e.state.status.chain_terminality = c;
    e
}

// Active, and nothing acknowledged.
pub fn reopen(mut e: SubmittedEntry) -> SubmittedEntry
    ensures { result ≡ revised reopened e }
{
    e.state.wallet_acknowledged_variant = OptionalHash::zero();
    e.state.status.chain_terminality = SubmissionChainTerminality::Active;
    e
}
