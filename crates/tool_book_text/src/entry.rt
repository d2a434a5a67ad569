// Attempts, retained submissions, queue entries, tokens and lists of ids.
ghost use Rattle.std.specs.Prelude.{◌+◌};
ghost use Rattle.codec_append.specs.Fits.{Fits};
ghost use Rattle.codec_forms.specs.Wire.{enc_many};
ghost use Rattle.tool_text.specs.Numbers.{decimal};
ghost use Rattle.tool_book_text.specs.Entries.{attempt_text, slot_text, slots_text, facts_text, entry_text, heading_text, heading_text_by_index, submission_text, submission_text_by_index, intent_text, delivery_text, delivery_text_by_index, token_text, tokens_text, id_after_space, none_of, ids_text};

use crate::Fingerprints;
use crate::checked::{
    append_checked, append_checked_intent, append_checked_optional, fingerprints_of,
};
use book::{
    AttemptSlots, DeliveryAttempt, OptionalAttempt, PendingDelivery, PendingSubmissionIntent,
    SubmittedEntry, SubmittedTx,
};
use codec_append::append_bytes;
use tool_bundle_text::bundle::{append_bundle, append_variant};
use tool_bundle_text::words::{
    append_chain, append_fee_intent, append_goal, append_height, append_id, append_resolution,
    append_trigger,
};
use tool_text::{append_decimal, append_number_line};

fn append_attempt(
    out: &mut [u8],
    at: usize,
    label: &[u8],
    f: Fingerprints,
    a: DeliveryAttempt,
) -> usize
    ensures { Fits (attempt_text label.now f a) at out.old out.new result }
{
    let goal = a.goal;
    let drained = a.drained_variant_fingerprint;
    let finalized = a.finalized_variant_fingerprint;
    let label_end = append_bytes(&mut *out, at, label);
    let token_end = append_number_line(&mut *out, label_end, b"token ", a.token.0);
    let word_end = append_bytes(&mut *out, token_end, b"    goal: ");
    let goal_end = append_goal(&mut *out, word_end, goal);
    let drained_end = append_checked(
        &mut *out,
        goal_end,
        b"    drained fingerprint: ",
        &drained,
        f,
    );
    append_checked_optional(out, drained_end, b"    finalised: ", finalized, f)
}

// Paper 01: an optional attempt is a mark with the attempt beside it; so too in `append_token`.
fn append_slot(
    out: &mut [u8],
    at: usize,
    label: &[u8],
    f: Fingerprints,
    s: OptionalAttempt,
) -> usize
    ensures { Fits (slot_text label.now f s) at out.old out.new result }
{
    if s.present {
        append_attempt(out, at, label, f, s.attempt)
    } else {
        let label_end = append_bytes(&mut *out, at, label);
        append_bytes(out, label_end, b"none\n")
    }
}

fn append_slots(out: &mut [u8], at: usize, f: Fingerprints, s: AttemptSlots) -> usize
    ensures { Fits (slots_text f s) at out.old out.new result }
{
    let active = s.active_attempt;
    let completed = s.completed_attempt;
    let active_end = append_slot(&mut *out, at, b"  live attempt: ", f, active);
    append_slot(out, active_end, b"  set-aside attempt: ", f, completed)
}

// Fee state and fee intent, acknowledged fingerprint, chain state, expiry.
fn append_facts(out: &mut [u8], at: usize, f: Fingerprints, e: SubmittedEntry) -> usize
    ensures { Fits (facts_text f e) at out.old out.new result }
{
    let status = e.state.status;
    let resolution = status.fee_resolution;
    let fee_intent = e.intent.fee_intent;
    let acknowledged = e.state.wallet_acknowledged_variant;
    let chain = status.chain_terminality;
    let expiry = status.expiry;
    let resolution_end = append_resolution(&mut *out, at, resolution);
    let intent_end = append_fee_intent(&mut *out, resolution_end, fee_intent);
    let acknowledged_end = append_checked_optional(
        &mut *out,
        intent_end,
        b"  acknowledged: ",
        acknowledged,
        f,
    );
    let chain_end = append_chain(&mut *out, acknowledged_end, chain);
    append_height(out, chain_end, b"  expiry height: ", expiry)
}

fn append_entry(out: &mut [u8], at: usize, f: Fingerprints, e: SubmittedEntry) -> usize
    ensures { Fits (entry_text f e) at out.old out.new result }
{
    let base = e.intent.base_bundle;
    let variant = e.state.current_variant;
    let fingerprint_end = append_checked_intent(&mut *out, at, e);
    let base_end = append_bundle(&mut *out, fingerprint_end, b"  base bundle, spends: ", base);
    let variant_end = append_variant(&mut *out, base_end, variant);
    append_facts(out, variant_end, f, e)
}

// The number behind i. The one behind the last `usize` is written out, so that any i is taken.
fn append_next(out: &mut [u8], at: usize, i: usize) -> usize
    ensures { Fits (decimal (i + 1)) at out.old out.new result }
{
    match i.checked_add(1) {
        Some(k) => append_decimal(out, at, k as u64),
        None => append_bytes(out, at, b"18446744073709551616"),
    }
}

// The k-th of n, counted from 1, as a heading.
fn append_heading(out: &mut [u8], at: usize, label: &[u8], k: usize, n: usize) -> usize
    ensures { Fits (heading_text label.now k n) at out.old out.new result }
{
    let label_end = append_bytes(&mut *out, at, label);
    let number_end = append_decimal(&mut *out, label_end, k as u64);
    append_number_line(out, number_end, b" of ", n as u64)
}

// The i-th of n, counted from 0, as a heading that counts from 1.
fn append_heading_by_index(out: &mut [u8], at: usize, label: &[u8], i: usize, n: usize) -> usize
    ensures { Fits (heading_text_by_index label.now i n) at out.old out.new result }
{
    let label_end = append_bytes(&mut *out, at, label);
    let number_end = append_next(&mut *out, label_end, i);
    append_number_line(out, number_end, b" of ", n as u64)
}

// A retained submission, the k-th of n.
pub fn append_submission(out: &mut [u8], at: usize, k: usize, n: usize, t: &SubmittedTx) -> usize
    ensures { Fits (submission_text k n t.now) at out.old out.new result }
{
    let slots = t.slots;
    let entry = t.entry;
    let f = fingerprints_of(entry);
    let heading_end = append_heading(&mut *out, at, b"retained submission ", k, n);
    let id_end = append_number_line(&mut *out, heading_end, b"  id: ", t.entry.id.0);
    let slots_end = append_slots(&mut *out, id_end, f, slots);
    append_entry(out, slots_end, f, entry)
}

// A retained submission, the i-th of n counted from 0.
pub fn append_submission_by_index(
    out: &mut [u8],
    at: usize,
    i: usize,
    n: usize,
    t: &SubmittedTx,
) -> usize
    ensures { Fits (submission_text_by_index i n t.now) at out.old out.new result }
{
    let slots = t.slots;
    let entry = t.entry;
    let f = fingerprints_of(entry);
    let heading_end = append_heading_by_index(&mut *out, at, b"retained submission ", i, n);
    let id_end = append_number_line(&mut *out, heading_end, b"  id: ", t.entry.id.0);
    let slots_end = append_slots(&mut *out, id_end, f, slots);
    append_entry(out, slots_end, f, entry)
}

// Id, bundle, expiry and fee intent of a queue entry.
fn append_intent(out: &mut [u8], at: usize, p: PendingSubmissionIntent) -> usize
    ensures { Fits (intent_text p) at out.old out.new result }
{
    let id = p.id;
    let bundle = p.bundle;
    let expiry = p.expiry;
    let fee_intent = p.fee_intent;
    let id_end = append_id(&mut *out, at, b"  id: ", id);
    let bundle_end = append_bundle(&mut *out, id_end, b"  bundle, spends: ", bundle);
    let expiry_end = append_height(&mut *out, bundle_end, b"  expiry height: ", expiry);
    append_fee_intent(out, expiry_end, fee_intent)
}

// A queue entry, the k-th of n.
pub fn append_delivery(out: &mut [u8], at: usize, k: usize, n: usize, d: &PendingDelivery) -> usize
    ensures { Fits (delivery_text k n d.now) at out.old out.new result }
{
    let intent = d.intent;
    let trigger = d.trigger;
    let goal = d.goal;
    let heading_end = append_heading(&mut *out, at, b"queue entry ", k, n);
    let intent_end = append_intent(&mut *out, heading_end, intent);
    let trigger_end = append_trigger(&mut *out, intent_end, trigger);
    let word_end = append_bytes(&mut *out, trigger_end, b"  goal: ");
    append_goal(out, word_end, goal)
}

// A queue entry, the i-th of n counted from 0.
pub fn append_delivery_by_index(
    out: &mut [u8],
    at: usize,
    i: usize,
    n: usize,
    d: &PendingDelivery,
) -> usize
    ensures { Fits (delivery_text_by_index i n d.now) at out.old out.new result }
{
    let intent = d.intent;
    let trigger = d.trigger;
    let goal = d.goal;
    let heading_end = append_heading_by_index(&mut *out, at, b"queue entry ", i, n);
    let intent_end = append_intent(&mut *out, heading_end, intent);
    let trigger_end = append_trigger(&mut *out, intent_end, trigger);
    let word_end = append_bytes(&mut *out, trigger_end, b"  goal: ");
    append_goal(out, word_end, goal)
}

// The token of a slot, if there is one, what became of it, and its submission.
fn append_token(out: &mut [u8], at: usize, fate: &[u8], id: u64, s: OptionalAttempt) -> usize
    ensures { Fits (token_text fate.now id s) at out.old out.new result }
{
    if s.present {
        let word_end = append_bytes(&mut *out, at, b"  token ");
        let token_end = append_decimal(&mut *out, word_end, s.attempt.token.0);
        append_number_line(out, token_end, fate, id)
    } else {
        at
    }
}

// The tokens that a submission's slots hold.
pub fn append_tokens(out: &mut [u8], at: usize, t: &SubmittedTx) -> usize
    ensures { Fits (tokens_text t.now) at out.old out.new result }
{
    let slots = t.slots;
    let active = slots.active_attempt;
    let completed = slots.completed_attempt;
    let id = t.entry.id.0;
    let active_end = append_token(&mut *out, at, b": live, submission ", id, active);
    append_token(out, active_end, b": set aside, submission ", id, completed)
}

fn append_spaced(out: &mut [u8], at: usize, n: u64) -> usize
    ensures { Fits (id_after_space n) at out.old out.new result }
{
    let space_end = append_bytes(&mut *out, at, b" ");
    append_decimal(out, space_end, n)
}

fn append_numbers(out: &mut [u8], at: usize, l: &[u64]) -> usize
    ensures { Fits (enc_many id_after_space l.now) at out.old out.new result }
{
    let mut e = at;
    for n in l {
        e = append_spaced(&mut *out, e, *n);
    }
    e
}

fn append_none(out: &mut [u8], at: usize, l: &[u64]) -> usize
    ensures { Fits (none_of l.now) at out.old out.new result }
{
    if l.is_empty() {
        return append_bytes(out, at, b" none");
    }
    at
}

// Ids on one line.
pub fn append_ids(out: &mut [u8], at: usize, label: &[u8], l: &[u64]) -> usize
    ensures { Fits (ids_text label.now l.now) at out.old out.new result }
{
    let label_end = append_bytes(&mut *out, at, label);
    let none_end = append_none(&mut *out, label_end, l);
    let ids_end = append_numbers(&mut *out, none_end, l);
    append_bytes(out, ids_end, b"\n")
}
