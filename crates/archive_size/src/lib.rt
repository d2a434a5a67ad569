// How many bytes the archive of a book takes, without writing it.
#![tactic(auto)]

ghost use Rattle.codec_forms.specs.Puts.{Size};
ghost use Rattle.archive_form.specs.Encode.{encode_hash, encode_slot, encode_variant, encode_facts, encode_submitted, encode_id, encode_delivery, encode_book};

use archive_bundle_size::{size_bundle, size_fee_intent, size_first, size_height};
use book::{
    BookData, OptionalAttempt, OptionalHash, PendingDelivery, SubmissionBroadcastVariant,
    SubmissionId, SubmittedEntry, SubmittedTx,
};

fn size_hash(h: OptionalHash) -> usize
    ensures { Size (encode_hash h) 33 result }
{
    if h.present { 33 } else { 1 }
}

fn size_slot(a: OptionalAttempt) -> usize
    ensures { Size (encode_slot a) 75 result }
{
    if a.present {
        42 + size_hash(a.attempt.finalized_variant_fingerprint)
    } else {
        1
    }
}

fn size_variant(v: &SubmissionBroadcastVariant) -> usize
    ensures { Size (encode_variant v.now) 1082 result }
{
    if v.fee_bearing {
        9 + size_bundle(v.bundle)
    } else {
        1
    }
}

// Intent and state of a submission; by value, since behind a reference the length of the fingerprint is not known.
fn size_facts(e: SubmittedEntry) -> usize
    ensures { Size (encode_facts e.intent e.state) 2272 result }
{
    let intent = &e.intent;
    let state = &e.state;
    34 + size_bundle(intent.base_bundle)
        + size_variant(&state.current_variant)
        + size_fee_intent(intent.fee_intent)
        + size_hash(state.wallet_acknowledged_variant)
        + size_height(state.status.expiry)
}

fn size_submitted(t: &SubmittedTx) -> usize
    ensures { Size (encode_submitted t.now) 2430 result }
{
    let s = size_slot(t.slots.active_attempt) + size_slot(t.slots.completed_attempt);
    8 + s + size_facts(t.entry)
}

// One line, as `size_height` is: a function for both would be told the form, and each would still say which it sizes.
fn size_id(i: Option<SubmissionId>) -> usize
    ensures { Size (encode_id i) 9 result }
{
    if i.is_none() { 1 } else { 9 }
}

fn size_delivery(d: &PendingDelivery) -> usize
    ensures { Size (encode_delivery d.now) 1134 result }
{
    let intent = &d.intent;
    2 + size_id(intent.id)
        + size_bundle(intent.bundle)
        + size_height(intent.expiry)
        + size_fee_intent(intent.fee_intent)
}

pub fn size_archive(b: BookData) -> usize
    ensures { Size (encode_book b) 57694 result }
{
    let epoch = b.replay_epoch;
    let s = size_first(&b.submitted, b.submitted_count, size_submitted);
    let q = size_first(&b.pending_deliveries, b.pending_count, size_delivery);
    let r = b.retired_submission_ids.count.min(64) * 8;
    let p = epoch.replayed_submission_ids.count.min(16) * 8;
    21 + s + q + r + size_height(epoch.rollback_height) + p
}
