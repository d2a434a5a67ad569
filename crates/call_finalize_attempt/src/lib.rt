// `finalize_attempt`, on a book by value: the live attempt of a token gets its final variant, with the fee attached or without it.
#![tactic(auto)]

ghost use Rattle.std.specs.Prelude.{◌<◌, true, not, ◌&&◌, ◌≡◌, length};
ghost use Rattle.book.specs.Zero.{is_ensure_broadcast};
ghost use Rattle.book.specs.Model.{view};
ghost use Rattle.book.specs.Sound.{sound_bundle};
ghost use Rattle.rules.specs.Parts.{current_acknowledged};
ghost use Rattle.rules.specs.Rule.{attach as attaches};
ghost use Rattle.rules.specs.Steps.{with_entry, run_book};
ghost use Rattle.rules.specs.Steps.Entry.{revised};
ghost use Rattle.rules.specs.Calls.Finalized.{unused_fee, current_final, attached_final};
ghost use Rattle.rules.specs.Calls.FinalizeAttempt.{is_joined, is_not_requested, sound_source, finalize_live, finalize_attempt};
ghost use Rattle.part_replies.specs.Reply.{reply};
ghost use Rattle.part_attempt_answers.specs.Live.{at};
ghost use Rattle.call_finalize_attempt.specs.Decision.{decision, final_as};

mod hashed;

use crate::hashed::{Hashed, hash_current};
use archive_fingerprints::variant_fingerprint;
use book::refusal::Refusal;
use book::sound::SoundBook;
use book::{BookData, SpendBundle, SubmissionDeliveryGoal, SubmittedEntry, SubmittedTx, Token};
use book_answers::{FeeSourceDisposition, FinalizedSubmission, SubmissionFeeSource};
use book_sound::is_sound_bundle;
use part_attempt_answers::{inactive, live_place};
use part_lookup::find_attempt;
use part_replies::{Reply, done, refused};
use part_slots::finalized;
use part_submitted::entry::{current_applied_fee, current_bundle, fee_unresolved, holds_hash};
use part_submitted::fingerprint::validate;
use part_submitted::revise::attach;

// ---- the fee source
// One comparison each, named as the rules name it.
fn is_joined(source: SubmissionFeeSource) -> bool
    ensures { result ≡ is_joined source }
{
    source == SubmissionFeeSource::Joined
}

fn is_not_requested(source: SubmissionFeeSource) -> bool
    ensures { result ≡ is_not_requested source }
{
    source == SubmissionFeeSource::NotRequested
}

// Two arguments, here and below, as in the C interface: a bundle beside a source that asks for none is refused 3.
// A joined bundle is sound; beside any other source it is zero.
fn is_sound_source(source: SubmissionFeeSource, joined: SpendBundle) -> bool
    ensures { result ≡ sound_source source joined }
{
    if is_joined(source) {
        return is_sound_bundle(&joined);
    }
    joined.is_zero()
}

// ---- the final variant
// The current variant of the submission is broadcast, unless it is acknowledged already.
#[tactic(auto, unfolding(rules::specs::Parts::current_acknowledged))]
fn should_broadcast(h: Hashed) -> bool
    ensures { result ≡ (is_ensure_broadcast h.held.slots.active_attempt.attempt.goal && not (current_acknowledged h.held.entry)) }
{
    match h.held.slots.active_attempt.attempt.goal {
        SubmissionDeliveryGoal::FeeUpgrade => false,
        SubmissionDeliveryGoal::EnsureBroadcast => !holds_hash(
            h.held.entry.state.wallet_acknowledged_variant,
            h.fingerprint,
        ),
    }
}

// The base is broadcast without the fee.
#[tactic(auto, unfolding(rules::specs::Calls::Finalized::unused_fee))]
fn unused_fee(h: Hashed) -> FinalizedSubmission
    ensures { result ≡ unused_fee h.held.slots.active_attempt.attempt.goal h.held.entry }
{
    let f = h.fingerprint;
    FinalizedSubmission {
        bundle: h.held.entry.intent.base_bundle,
        applied_fee: 0,
        warning: true,
        disposition: FeeSourceDisposition::Unused,
        variant_fingerprint: f,
        should_broadcast: should_broadcast(h),
    }
}

// No fee is open: the current variant.
#[tactic(auto, unfolding(rules::specs::Calls::Finalized::current_final))]
fn current_final(h: Hashed) -> FinalizedSubmission
    ensures { result ≡ current_final h.held.slots.active_attempt.attempt.goal h.held.entry }
{
    let f = h.fingerprint;
    FinalizedSubmission {
        bundle: current_bundle(h.held.entry),
        applied_fee: current_applied_fee(h.held.entry),
        warning: false,
        disposition: FeeSourceDisposition::NotRequested,
        variant_fingerprint: f,
        should_broadcast: should_broadcast(h),
    }
}

// The joined bundle, with the fee that was asked for.
#[tactic(auto, unfolding(rules::specs::Calls::Finalized::attached_final))]
fn attached_final(joined: SpendBundle, e: SubmittedEntry) -> FinalizedSubmission
    ensures { result ≡ attached_final joined e }
{
    let f = variant_fingerprint(joined);
    FinalizedSubmission {
        bundle: joined,
        applied_fee: e.intent.fee_intent.amount,
        warning: false,
        disposition: FeeSourceDisposition::Attached,
        variant_fingerprint: f,
        should_broadcast: !holds_hash(e.state.wallet_acknowledged_variant, f),
    }
}

// ---- what becomes of the submission
// The answer, and the submission as it is stored.
#[derive(Clone, Copy)]
pub struct Decision {
    pub last: FinalizedSubmission,
    pub next: SubmittedTx,
}

// Refused where a fee source comes without an unresolved fee.
fn decide(h: Hashed, source: SubmissionFeeSource, joined: SpendBundle) -> Result<Decision, Refusal>
    requires { sound_source source joined ≡ true }
    ensures { result ≡ decision source joined h.held }
{
    if fee_unresolved(h.held.entry) {
        if is_joined(source) {
            return Ok(attached(h.held, joined));
        }
        return Ok(decided(h.held, unused_fee(h)));
    }
    if is_not_requested(source) {
        return Ok(decided(h.held, current_final(h)));
    }
    Err(Refusal::UnrequestedFee)
}

// The joined bundle is the variant from here on.
fn attached(s: SubmittedTx, joined: SpendBundle) -> Decision
    requires { sound_bundle joined ≡ true }
    ensures { result ≡ final_as (attached_final joined s.entry) (with_entry (revised (attaches joined)) s) }
{
    let last = attached_final(joined, s.entry);
    let mut next = s;
    next.entry = attach(s.entry, joined);
    decided(next, last)
}

// The final fingerprint goes into the live attempt.
fn decided(s: SubmittedTx, last: FinalizedSubmission) -> Decision
    ensures { result ≡ final_as last s }
{
    let mut next = s;
    next.slots = finalized(s.slots, last.variant_fingerprint);
    Decision { last, next }
}

// ---- the call
// The look-up of the token is that of the other attempt calls: a shared one would be told the rest of the call, with its contract.
pub fn finalize_attempt_sound(
    b: SoundBook,
    t: Token,
    source: SubmissionFeeSource,
    joined: SpendBundle,
) -> Reply<Option<FinalizedSubmission>, BookData>
    ensures { result ≡ reply b.parts (run_book (finalize_attempt t.0 source joined) (view b.parts)) }
{
    let sound = is_sound_source(source, joined);
    if !sound {
        return refused(b.parts, Refusal::BadValue);
    }
    let place = find_attempt(&b.parts, t);
    let Some(k) = live_place(place) else {
        return inactive(b.parts, place, None);
    };
    finalize_live(b, k, source, joined)
}

// A place is one of this book only: a struct of both would lend or copy the book.
// Refusals 5, 7 and 8, and 9 where the fee says so; else the submission is stored as decided.
// Not inlined: its copies of the book would lie below the frame of the reader, which takes the most stack of a call through C.
#[inline(never)]
fn finalize_live(
    mut b: SoundBook,
    k: usize,
    source: SubmissionFeeSource,
    joined: SpendBundle,
) -> Reply<Option<FinalizedSubmission>, BookData>
    requires { (k < length (view b.parts).submitted) × (sound_source source joined ≡ true) }
    ensures { result ≡ reply b.parts (run_book (finalize_live source joined (at (view b.parts) k)) (view b.parts)) }
{
    let s = b.parts.submitted[k];
    let a = s.slots.active_attempt.attempt;
    // Paper 01: an optional digest is a mark with the digest beside it.
    if a.finalized_variant_fingerprint.present {
        return refused(b.parts, Refusal::AlreadyFinalized);
    }
    let valid = validate(s.entry);
    if !valid {
        return refused(b.parts, Refusal::InvalidSubmission);
    }
    let h = hash_current(s);
    if h.fingerprint != a.drained_variant_fingerprint {
        return refused(b.parts, Refusal::StaleVariant);
    }
    match decide(h, source, joined) {
        Ok(d) => {
            b.parts.submitted[k] = d.next;
            done(b.parts, Some(d.last))
        }
        Err(why) => refused(b.parts, why),
    }
}
