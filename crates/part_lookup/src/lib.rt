// Looking into a book: places of submissions, and what stands there.
#![tactic(auto)]

ghost use Rattle.std.specs.Prelude.{◌≡◌, ◌<◌, length, get_or, map, cond};
ghost use Rattle.book.specs.Model.{view, id_cells};
ghost use Rattle.book.specs.Sound.{id_of};
ghost use Rattle.book.specs.Zero.{zero_submitted};
ghost use Rattle.rules.specs.Steps.Notes.{is_id};
ghost use Rattle.rules.specs.Calls.Common.{has_token};
ghost use Rattle.rules.specs.Calls.Offer.{is_queued};
ghost use Rattle.part_lookup.specs.Normal.{Normal};
ghost use Rattle.part_lookup.specs.Place.{place_of, place_of_id, has_intent};
ghost use Rattle.part_lookup.specs.Lookup.{attempt_place};

use book::{BookData, Ids, OptionalAttempt, PendingDelivery, SubmissionId, SubmittedTx, Token};
use part_ids::{empty, push};

// An answer enum of our own, as paper 01 names it: its four answers are no `Option` and no `Result`.
// Where an attempt token stands.
#[derive(Clone, Copy)]
pub enum AttemptPlace {
    Live(usize),
    SetAside(usize),
    Gone,
    NeverIssued,
}

// `Normal b`, here and below: between two changes of a call a book is normal but not known to be sound, and wrapping a lent one copies it.
// The retained submissions.
pub fn submitted(b: &BookData) -> &[SubmittedTx]
    requires { Normal b.now }
    ensures { result.now ≡ (view b.now).submitted }
{
    &b.submitted[..b.submitted_count]
}

// The queue.
pub fn pending(b: &BookData) -> &[PendingDelivery]
    requires { Normal b.now }
    ensures { result.now ≡ (view b.now).pending }
{
    &b.pending_deliveries[..b.pending_count]
}

pub fn position_of(b: &BookData, id: SubmissionId) -> Option<usize>
    requires { Normal b.now }
    ensures { result ≡ place_of_id id.0 (view b.now) }
{
    submitted(b).iter().position(|t| t.entry.id == id)
}

// `live` is a flag and no closure: the contract names the slot by it.
// The place of the submission whose live attempt, or the one set aside, has the token.
fn position_of_attempt(b: &BookData, token: Token, live: bool) -> Option<usize>
    requires { Normal b.now }
    ensures { result ≡ place_of (λ t. has_token token.0 (cond live t.slots.active_attempt t.slots.completed_attempt)) (view b.now).submitted }
{
    submitted(b)
        .iter()
        .position(|t| is_attempt(slot_of(t, live), token))
}

fn slot_of(t: &SubmittedTx, live: bool) -> &OptionalAttempt
    ensures { result.now ≡ cond live t.now.slots.active_attempt t.now.slots.completed_attempt }
{
    if live {
        &t.slots.active_attempt
    } else {
        &t.slots.completed_attempt
    }
}

// Paper 01: an optional attempt is a mark with the attempt beside it.
// The attempt is there, and the token is its own.
fn is_attempt(a: &OptionalAttempt, token: Token) -> bool
    ensures { result ≡ has_token token.0 a.now }
{
    a.present && a.attempt.token == token
}

#[tactic(auto, unfolding(book::specs::Model::view, crate::specs::Lookup::attempt_place))]
pub fn find_attempt(b: &BookData, token: Token) -> AttemptPlace
    requires { Normal b.now }
    ensures { result ≡ attempt_place token.0 (view b.now) }
{
    if let Some(k) = position_of_attempt(b, token, true) {
        return AttemptPlace::Live(k);
    }
    if b.next_delivery_attempt_token <= token {
        return AttemptPlace::NeverIssued;
    }
    let Some(k) = position_of_attempt(b, token, false) else {
        return AttemptPlace::Gone;
    };
    AttemptPlace::SetAside(k)
}

pub fn is_id(o: Option<SubmissionId>, id: SubmissionId) -> bool
    ensures { result ≡ is_id id.0 o }
{
    o == Some(id)
}

// The queue has an entry of the id.
#[tactic(auto, unfolding(rules::specs::Calls::Offer::is_queued))]
pub fn is_queued(b: &BookData, id: SubmissionId) -> bool
    requires { Normal b.now }
    ensures { result ≡ is_queued id.0 (view b.now) }
{
    pending(b).iter().any(|d| is_id(d.intent.id, id))
}

// A place is one of this book only: a struct of both would lend or copy the book.
pub fn submitted_at(b: &BookData, k: usize) -> SubmittedTx
    requires { Normal b.now × (k < length (view b.now).submitted) }
    ensures { result ≡ get_or (view b.now).submitted k zero_submitted }
{
    submitted(b)[k]
}

// The place of the first submission of the intent fingerprint.
pub fn position_of_intent(b: &BookData, fingerprint: &[u8; 32]) -> Option<usize>
    requires { Normal b.now }
    ensures { result ≡ place_of (has_intent fingerprint.now) (view b.now).submitted }
{
    submitted(b)
        .iter()
        .position(|t| t.entry.intent.intent_fingerprint == *fingerprint)
}

// A loop and no `collect`: `Ids` has sixteen cells, so that not every iterator could fill it.
// The ids of the submissions, in their order.
pub fn submitted_ids(b: &BookData) -> Ids<16>
    requires { Normal b.now }
    ensures { result ≡ id_cells 16 (map id_of (view b.now).submitted) }
{
    let mut out = empty();
    for t in submitted(b) {
        push(&mut out, t.entry.id);
    }
    out
}
