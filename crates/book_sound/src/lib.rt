// Tests of soundness. Each answers exactly its definition in book's `Sound`, for every value.
#![tactic(auto)]

ghost use Rattle.std.specs.Prelude.{◌≡◌, take};
ghost use Rattle.base_lists.specs.Lists.{tail_of, is_zero};
ghost use Rattle.std.specs.List.{list_all};
ghost use Rattle.book.specs.Sound.{sound_spend, sound_bundle, readable_bundle, sound_fee_intent, sound_hash, sound_attempt, sound_slots, sound_variant, sound_entry, sound_submitted, sound_intent, sound_delivery, sound_cells, sound_lists, soundb};
ghost use Rattle.book.specs.Model.{view};

use crate::cells::{
    delivery_tail, distinct_tokens, ids_tail, listed, sound_deliveries, sound_submissions,
    submitted_ids, submitted_tail, submitted_tokens, tokens_below,
};
use crate::numbers::all_among;
use base_lists::{distinct, is_rising, zero_array};
use book::zero::{passes_from, zero_outputs, zero_spends};
use book::{
    AttemptSlots, BookData, CoinSpend, FeeIntentKind, OptionalAttempt, OptionalHash,
    PendingDelivery, PendingSubmissionIntent, SpendBundle, SubmissionBroadcastVariant,
    SubmissionFeeIntent, SubmittedEntry, SubmittedTx,
};

pub mod cells;
pub mod numbers;

// The bytes of a coin cell from n on are zero.
// One call, as `zero_outputs` is: it names the test, and its contract the length, of this array.
#[tactic(auto, using(base_lists::specs::Laws::tail_of_lem))]
fn coin_tail(coin: &[u8; 73], n: usize) -> bool
    ensures { result ≡ tail_of 73 is_zero n coin.now }
{
    passes_from(coin, n, |x| *x == 0)
}

#[tactic(auto, unfolding(book::specs::Sound::sound_spend))]
pub fn is_sound_spend(s: &CoinSpend) -> bool
    ensures { result ≡ sound_spend s.now }
{
    let c = coin_tail(&s.coin, s.coin_len as usize);
    let o = zero_outputs(&s.outputs, s.output_count as usize);
    s.coin_len <= 73 && c && s.output_count <= 4 && o && (s.readable || s.output_count == 0)
}

// One chain each, as `sound_submissions` and `sound_deliveries`: the test is the part's own.
fn sound_spends(s: &[CoinSpend], n: usize) -> bool
    ensures { result ≡ list_all sound_spend (take n s.now) }
{
    s.iter().take(n).all(is_sound_spend)
}

fn readable_spends(s: &[CoinSpend], n: usize) -> bool
    ensures { result ≡ list_all (λ s. s.readable) (take n s.now) }
{
    s.iter().take(n).all(|x| x.readable)
}

#[tactic(auto, unfolding(book::specs::Sound::sound_bundle))]
pub fn is_sound_bundle(b: &SpendBundle) -> bool
    ensures { result ≡ sound_bundle b.now }
{
    let n = b.count as usize;
    b.count <= 4 && zero_spends(&b.spends, n) && sound_spends(&b.spends, n)
}

#[tactic(auto, unfolding(book::specs::Sound::readable_bundle))]
pub fn is_readable_bundle(b: &SpendBundle) -> bool
    ensures { result ≡ readable_bundle b.now }
{
    readable_spends(&b.spends, b.count as usize)
}

#[tactic(auto, unfolding(book::specs::Sound::sound_fee_intent))]
pub fn is_sound_fee_intent(f: &SubmissionFeeIntent) -> bool
    ensures { result ≡ sound_fee_intent f.now }
{
    f.kind == FeeIntentKind::Attach || (f.amount == 0 && zero_array(&f.target))
}

#[tactic(auto, unfolding(book::specs::Sound::sound_hash))]
pub fn is_sound_hash(h: &OptionalHash) -> bool
    ensures { result ≡ sound_hash h.now }
{
    h.present || h.is_zero()
}

#[tactic(auto, unfolding(book::specs::Sound::sound_attempt))]
pub fn is_sound_attempt(a: &OptionalAttempt) -> bool
    ensures { result ≡ sound_attempt a.now }
{
    if a.present {
        is_sound_hash(&a.attempt.finalized_variant_fingerprint)
    } else {
        a.is_zero()
    }
}

#[tactic(auto, unfolding(book::specs::Sound::sound_slots))]
pub fn is_sound_slots(s: &AttemptSlots) -> bool
    ensures { result ≡ sound_slots s.now }
{
    is_sound_attempt(&s.active_attempt) && is_sound_attempt(&s.completed_attempt)
}

#[tactic(auto, unfolding(book::specs::Sound::sound_variant))]
pub fn is_sound_variant(v: &SubmissionBroadcastVariant) -> bool
    ensures { result ≡ sound_variant v.now }
{
    if v.fee_bearing {
        is_sound_bundle(&v.bundle)
    } else {
        v.is_zero()
    }
}

#[tactic(auto, unfolding(book::specs::Sound::sound_entry, book::specs::Sound::sound_retained_intent, book::specs::Sound::sound_state))]
pub fn is_sound_entry(e: &SubmittedEntry) -> bool
    ensures { result ≡ sound_entry e.now }
{
    let intent = is_sound_bundle(&e.intent.base_bundle)
        && is_readable_bundle(&e.intent.base_bundle)
        && is_sound_fee_intent(&e.intent.fee_intent);
    let state = is_sound_variant(&e.state.current_variant)
        && is_sound_hash(&e.state.wallet_acknowledged_variant);
    intent && state
}

// Functions of one line from here on: each part has its own definition in `Sound`, and a name for its test.
#[tactic(auto, unfolding(book::specs::Sound::sound_submitted))]
pub fn is_sound_submitted(t: &SubmittedTx) -> bool
    ensures { result ≡ sound_submitted t.now }
{
    is_sound_slots(&t.slots) && is_sound_entry(&t.entry)
}

#[tactic(auto, unfolding(book::specs::Sound::sound_intent))]
pub fn is_sound_intent(p: &PendingSubmissionIntent) -> bool
    ensures { result ≡ sound_intent p.now }
{
    is_sound_bundle(&p.bundle) && is_sound_fee_intent(&p.fee_intent)
}

#[tactic(auto, unfolding(book::specs::Sound::sound_delivery))]
pub fn is_sound_delivery(d: &PendingDelivery) -> bool
    ensures { result ≡ sound_delivery d.now }
{
    is_sound_intent(&d.intent)
}

// Counts within their limits, and zero behind them.
#[tactic(auto, unfolding(book::specs::Sound::sound_cells))]
fn sound_cells(b: &BookData) -> bool
    ensures { result ≡ sound_cells b.now }
{
    let replayed = &b.replay_epoch.replayed_submission_ids;
    b.submitted_count <= 16
        && submitted_tail(&b.submitted, b.submitted_count)
        && b.pending_count <= 16
        && delivery_tail(&b.pending_deliveries, b.pending_count)
        && b.retired_submission_ids.count <= 64
        && ids_tail(&b.retired_submission_ids)
        && replayed.count <= 16
        && ids_tail(replayed)
}

// The rules over the lists.
fn sound_lists(b: &BookData) -> bool
    ensures { result ≡ sound_lists (view b.now) }
{
    let ids = submitted_ids(&b.submitted, b.submitted_count);
    let tokens = submitted_tokens(&b.submitted, b.submitted_count);
    let submissions = sound_submissions(&b.submitted, b.submitted_count);
    let retained = listed(&ids);
    let retired = listed(&b.retired_submission_ids);
    let replayed = listed(&b.replay_epoch.replayed_submission_ids);
    let distinct_submissions = distinct(retained);
    let distinct_attempts = distinct_tokens(&tokens);
    let issued = tokens_below(&tokens, b.next_delivery_attempt_token);
    let deliveries = sound_deliveries(&b.pending_deliveries, b.pending_count);
    let distinct_retired = distinct(retired);
    let rising = is_rising(replayed);
    let known = all_among(replayed, retained);
    submissions
        & distinct_submissions
        & distinct_attempts
        & issued
        & deliveries
        & distinct_retired
        & rising
        & known
}

// The door of every call: the book is sound.
#[tactic(auto, unfolding(book::specs::Sound::soundb))]
pub fn is_sound(b: &BookData) -> bool
    ensures { result ≡ soundb b.now }
{
    sound_cells(b) && sound_lists(b)
}
