// Stored fingerprints, each with what it agrees with when it is computed anew.
ghost use Rattle.std.specs.Prelude.{◌≡◌};
ghost use Rattle.codec_append.specs.Fits.{Fits};
ghost use Rattle.tool_book_text.specs.Checked.{fingerprints_of, intent_agrees, agreement_text, checked_text, checked_optional, intent_agreement, checked_intent};

use crate::Fingerprints;
use archive_fingerprints::{intent_fingerprint, variant_fingerprint};
use book::{OptionalHash, SubmittedEntry};
use codec_append::append_bytes;
use part_submitted::fingerprint::current_variant_fingerprint;
use tool_bundle_text::words::append_hash_part;

// Those of base bundle and current variant.
pub fn fingerprints_of(e: SubmittedEntry) -> Fingerprints
    ensures { result ≡ fingerprints_of e }
{
    let bundle = e.intent.base_bundle;
    Fingerprints {
        base: variant_fingerprint(bundle),
        current: current_variant_fingerprint(e),
    }
}

// The intent fingerprint is that of the base bundle, the expiry and the fee intent that are held.
pub fn intent_agrees(e: SubmittedEntry) -> bool
    ensures { result ≡ intent_agrees e }
{
    let bundle = e.intent.base_bundle;
    let expiry = e.state.status.expiry;
    let fee = e.intent.fee_intent;
    e.intent.intent_fingerprint == intent_fingerprint(bundle, expiry, fee)
}

fn append_agreement(out: &mut [u8], at: usize, base: bool, current: bool) -> usize
    ensures { Fits (agreement_text base current) at out.old out.new result }
{
    let text: &[u8] = match (base, current) {
        (true, true) => b", agrees with base bundle and current variant\n",
        (true, false) => b", agrees with the base bundle\n",
        (false, true) => b", agrees with the current variant\n",
        (false, false) => b", DOES NOT AGREE with base bundle or current variant\n",
    };
    append_bytes(out, at, text)
}

// A label, a fingerprint of a variant, and which variant has it.
pub fn append_checked(
    out: &mut [u8],
    at: usize,
    label: &[u8],
    stored: &[u8; 32],
    f: Fingerprints,
) -> usize
    ensures { Fits (checked_text label.now stored.now f) at out.old out.new result }
{
    let hash_end = append_hash_part(&mut *out, at, label, stored);
    append_agreement(out, hash_end, *stored == f.base, *stored == f.current)
}

// An optional one. paper 01: an optional digest is a mark with the digest beside it.
pub fn append_checked_optional(
    out: &mut [u8],
    at: usize,
    label: &[u8],
    h: OptionalHash,
    f: Fingerprints,
) -> usize
    ensures { Fits (checked_optional label.now h f) at out.old out.new result }
{
    let label_end = append_bytes(&mut *out, at, label);
    if h.present {
        append_checked(out, label_end, b"yes, fingerprint ", &h.hash, f)
    } else {
        append_bytes(out, label_end, b"no\n")
    }
}

fn append_intent_agreement(out: &mut [u8], at: usize, agrees: bool) -> usize
    ensures { Fits (intent_agreement agrees) at out.old out.new result }
{
    let text: &[u8] = if agrees {
        b", agrees with base bundle, expiry and fee intent\n"
    } else {
        b", DOES NOT AGREE with base bundle, expiry and fee intent\n"
    };
    append_bytes(out, at, text)
}

// The intent fingerprint of a submission.
pub fn append_checked_intent(out: &mut [u8], at: usize, e: SubmittedEntry) -> usize
    ensures { Fits (checked_intent e) at out.old out.new result }
{
    let stored = e.intent.intent_fingerprint;
    let agrees = intent_agrees(e);
    let hash_end = append_hash_part(&mut *out, at, b"  intent fingerprint: ", &stored);
    append_intent_agreement(out, hash_end, agrees)
}
