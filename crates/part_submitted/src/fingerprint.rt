// The fingerprints of a submission, and what is decided by them.
ghost use Rattle.std.specs.Prelude.{◌≡◌};
ghost use Rattle.base_lists.specs.Bytes.{eqs};
ghost use Rattle.book.specs.Sound.{is_attach};
ghost use Rattle.archive_bundle_form.specs.Forms.{variant_fingerprint};
ghost use Rattle.rules.specs.Parts.{current_fingerprint, current_acknowledged, intent_of, consistent_fee, known_acknowledged, validate as valid};

use crate::entry::{current_bundle, holds_hash};
use archive_fingerprints::{intent_fingerprint, variant_fingerprint};
use book::{FeeIntentKind, FeeResolution, PendingSubmissionIntent, SpendBundle, SubmittedEntry};
use book_sound::is_readable_bundle;

pub fn current_variant_fingerprint(e: SubmittedEntry) -> [u8; 32]
    ensures { result ≡ current_fingerprint e }
{
    variant_fingerprint(current_bundle(e))
}

// Paper 01: a fee bundle or an optional digest is a mark with its cell beside it; `fee_bearing` and `present` are asked, here and below.
// Nothing is hashed where nothing is acknowledged.
pub fn current_variant_acknowledged(e: SubmittedEntry) -> bool
    ensures { result ≡ current_acknowledged e }
{
    if e.state.wallet_acknowledged_variant.present {
        return holds_hash(
            e.state.wallet_acknowledged_variant,
            current_variant_fingerprint(e),
        );
    }
    false
}

// The intent fingerprint of a queue entry's intent.
pub fn intent_of(p: PendingSubmissionIntent) -> [u8; 32]
    ensures { result ≡ intent_of p }
{
    intent_fingerprint(p.bundle, p.expiry, p.fee_intent)
}

fn consistent(r: FeeResolution, attach: bool, bearing: bool) -> bool
    ensures { result ≡ consistent_fee r attach bearing }
{
    match r {
        FeeResolution::Unresolved => attach & !bearing,
        FeeResolution::NotRequested => !bearing,
        FeeResolution::Attached => bearing,
    }
}

// Fee intent and broadcast variant go together.
pub fn consistent_fee(e: SubmittedEntry) -> bool
    ensures { result ≡ consistent_fee e.state.status.fee_resolution (is_attach e.intent.fee_intent.kind) e.state.current_variant.fee_bearing }
{
    consistent(
        e.state.status.fee_resolution,
        e.intent.fee_intent.kind == FeeIntentKind::Attach,
        e.state.current_variant.fee_bearing,
    )
}

// The cell of the acknowledged fingerprint has that of b.
fn acknowledges(e: SubmittedEntry, b: SpendBundle) -> bool
    ensures { result ≡ eqs e.state.wallet_acknowledged_variant.hash (variant_fingerprint b) }
{
    e.state.wallet_acknowledged_variant.hash == variant_fingerprint(b)
}

// An acknowledged variant is the base or the current one. Each of the two is hashed at most once.
pub fn known_acknowledged(e: SubmittedEntry) -> bool
    ensures { result ≡ known_acknowledged e }
{
    if e.state.wallet_acknowledged_variant.present {
        if acknowledges(e, e.intent.base_bundle) {
            return true;
        }
        if e.state.current_variant.fee_bearing {
            return acknowledges(e, e.state.current_variant.bundle);
        }
        return false;
    }
    true
}

pub fn validate(e: SubmittedEntry) -> bool
    ensures { result ≡ valid e }
{
    let readable = is_readable_bundle(&e.intent.base_bundle);
    let fee = consistent_fee(e);
    let known = known_acknowledged(e);
    readable & fee & known
}
