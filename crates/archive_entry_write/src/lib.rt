// The parts of a retained submission and of a queue entry, written from place `at` on; each function returns the place behind.
#![tactic(auto)]

ghost use Rattle.codec_append.specs.Fits.{Fits};
ghost use Rattle.archive_form.specs.Encode.{encode_hash, encode_attempt, encode_slot, encode_slots, encode_variant, encode_facts, encode_submitted, encode_id, encode_delivery};

use archive_bundle_write::write::{append_bundle, append_fee_intent, append_height};
use book::{
    AttemptSlots, DeliveryAttempt, OptionalAttempt, OptionalHash, PendingDelivery,
    SubmissionBroadcastVariant, SubmissionId, SubmittedEntry, SubmittedTx,
};
use codec_append::{append_byte, append_bytes, append_number, append_optional_number};

// Each optional part has an `if` of its own: a call with a closure for the part behind the mark is no shorter.
pub fn append_hash(out: &mut [u8], at: usize, h: OptionalHash) -> usize
    ensures { Fits (encode_hash h) at out.old out.new result }
{
    if h.present {
        let e = append_byte(&mut *out, at, 1);
        append_bytes(out, e, &h.hash)
    } else {
        append_byte(out, at, 0)
    }
}

pub fn append_attempt(out: &mut [u8], at: usize, a: DeliveryAttempt) -> usize
    ensures { Fits (encode_attempt a) at out.old out.new result }
{
    let token_end = append_number(&mut *out, at, a.token.0);
    let goal_end = append_byte(&mut *out, token_end, a.goal as u8);
    let drained_end = append_bytes(&mut *out, goal_end, &a.drained_variant_fingerprint);
    append_hash(out, drained_end, a.finalized_variant_fingerprint)
}

pub fn append_slot(out: &mut [u8], at: usize, a: OptionalAttempt) -> usize
    ensures { Fits (encode_slot a) at out.old out.new result }
{
    if a.present {
        let e = append_byte(&mut *out, at, 1);
        append_attempt(out, e, a.attempt)
    } else {
        append_byte(out, at, 0)
    }
}

fn append_slots(out: &mut [u8], at: usize, s: AttemptSlots) -> usize
    ensures { Fits (encode_slots s) at out.old out.new result }
{
    let e = append_slot(&mut *out, at, s.active_attempt);
    append_slot(out, e, s.completed_attempt)
}

fn append_variant(out: &mut [u8], at: usize, v: &SubmissionBroadcastVariant) -> usize
    ensures { Fits (encode_variant v.now) at out.old out.new result }
{
    if v.fee_bearing {
        let mark_end = append_byte(&mut *out, at, 1);
        let bundle_end = append_bundle(&mut *out, mark_end, v.bundle);
        append_number(out, bundle_end, v.applied_fee)
    } else {
        append_byte(out, at, 0)
    }
}

// Intent and state, in the order of the form.
fn append_facts(out: &mut [u8], at: usize, e: &SubmittedEntry) -> usize
    ensures { Fits (encode_facts e.now.intent e.now.state) at out.old out.new result }
{
    let intent = &e.intent;
    let state = &e.state;
    let status = state.status;
    let fingerprint_end = append_bytes(&mut *out, at, &intent.intent_fingerprint);
    let base_end = append_bundle(&mut *out, fingerprint_end, intent.base_bundle);
    let variant_end = append_variant(&mut *out, base_end, &state.current_variant);
    let mark_end = append_byte(&mut *out, variant_end, status.fee_resolution as u8);
    let fee_end = append_fee_intent(&mut *out, mark_end, intent.fee_intent);
    let acknowledged_end = append_hash(&mut *out, fee_end, state.wallet_acknowledged_variant);
    let chain_end = append_byte(&mut *out, acknowledged_end, status.chain_terminality as u8);
    append_height(out, chain_end, status.expiry)
}

pub fn append_submitted(out: &mut [u8], at: usize, t: &SubmittedTx) -> usize
    ensures { Fits (encode_submitted t.now) at out.old out.new result }
{
    let id_end = append_number(&mut *out, at, t.entry.id.0);
    let slots_end = append_slots(&mut *out, id_end, t.slots);
    append_facts(out, slots_end, &t.entry)
}

// One call, as `append_height` is: each says in its contract which number it writes.
pub fn append_id(out: &mut [u8], at: usize, i: Option<SubmissionId>) -> usize
    ensures { Fits (encode_id i) at out.old out.new result }
{
    append_optional_number(out, at, i.map(|x| x.0))
}

pub fn append_delivery(out: &mut [u8], at: usize, d: &PendingDelivery) -> usize
    ensures { Fits (encode_delivery d.now) at out.old out.new result }
{
    let intent = &d.intent;
    let id_end = append_id(&mut *out, at, intent.id);
    let bundle_end = append_bundle(&mut *out, id_end, intent.bundle);
    let expiry_end = append_height(&mut *out, bundle_end, intent.expiry);
    let fee_end = append_fee_intent(&mut *out, expiry_end, intent.fee_intent);
    let trigger_end = append_byte(&mut *out, fee_end, d.trigger as u8);
    append_byte(out, trigger_end, d.goal as u8)
}
