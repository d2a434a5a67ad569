// Putting one delivery into the queue, and offering a retained submission again.
#![tactic(auto)]

ghost use Rattle.std.specs.Prelude.{true, ◌≡◌};
ghost use Rattle.book.specs.Model.{view};
ghost use Rattle.book.specs.Sound.{sound_delivery};
ghost use Rattle.rules.specs.Steps.{run_book};
ghost use Rattle.part_replies.specs.Reply.{outcome_by};
ghost use Rattle.rules.specs.Rule.{enqueue as toQueue, note, step};
ghost use Rattle.rules.specs.Calls.Offer.{is_news, deliverable as isDeliverable, redelivery as redeliveryOf, offer as offerOf, goal_for};

use book::refusal::Refusal;
use book::sound::SoundBook;
use book::{
    DeliveryTrigger, PendingDelivery, PendingSubmissionIntent, SubmissionDeliveryGoal,
    SubmissionId, SubmittedEntry, SubmittedTx,
};
use part_change::push_pending;
use part_lookup::{is_queued, position_of, submitted_at};
use part_submitted::entry::{active_entry, fee_unresolved};
use part_submitted::fingerprint::current_variant_acknowledged;

// The book with one more entry; full where that would be a 17th.
pub fn enqueue(b: SoundBook, d: PendingDelivery) -> Result<SoundBook, Refusal>
    requires { sound_delivery d ≡ true }
    ensures { run_book (step (note (toQueue d))) (view b.parts) ≡ outcome_by tt result }
{
    if b.parts.pending_count == 16 {
        return Err(Refusal::Full);
    }
    let parts = push_pending(b.parts, d);
    Ok(SoundBook { parts })
}

fn is_news(trigger: DeliveryTrigger) -> bool
    ensures { result ≡ is_news trigger }
{
    matches!(
        trigger,
        DeliveryTrigger::FreshChain | DeliveryTrigger::ProviderReadiness
    )
}

// Trigger and goal are two arguments, here and below, as the call and the rules take them.
#[tactic(auto, unfolding(rules::specs::Calls::Offer::deliverable))]
fn deliverable(t: SubmittedTx, trigger: DeliveryTrigger, goal: SubmissionDeliveryGoal) -> bool
    ensures { result ≡ isDeliverable trigger goal t }
{
    let e = t.entry;
    let active = active_entry(e);
    let unresolved = fee_unresolved(e);
    let news = is_news(trigger);
    let protocol = trigger == DeliveryTrigger::Protocol;
    let ensure = goal == SubmissionDeliveryGoal::EnsureBroadcast;
    // Paper 01: an optional attempt or digest is a mark with its cell beside it.
    let live = t.slots.active_attempt.present;
    let finalized = t
        .slots
        .active_attempt
        .attempt
        .finalized_variant_fingerprint
        .present;
    active & !(news & unresolved & (live & !finalized)) & !(live & protocol) & (ensure | unresolved)
}

// The queue entry of a retained submission's own intent.
#[tactic(auto, unfolding(rules::specs::Calls::Offer::redelivery))]
fn redelivery(
    e: SubmittedEntry,
    trigger: DeliveryTrigger,
    goal: SubmissionDeliveryGoal,
) -> PendingDelivery
    ensures { result ≡ redeliveryOf trigger goal e }
{
    let intent = PendingSubmissionIntent {
        id: Some(e.id),
        bundle: e.intent.base_bundle,
        expiry: e.state.status.expiry,
        fee_intent: e.intent.fee_intent,
    };
    PendingDelivery {
        intent,
        trigger,
        goal,
    }
}

// `queue_retained_delivery` of the Rust: refused where the queue is full. What is not retained, is queued, or is not to be delivered leaves
// the book as it is.
pub fn offer(
    b: SoundBook,
    id: SubmissionId,
    trigger: DeliveryTrigger,
    goal: SubmissionDeliveryGoal,
) -> Result<SoundBook, Refusal>
    ensures { run_book (offerOf id.0 trigger goal) (view b.parts) ≡ outcome_by tt result }
{
    let place = position_of(&b.parts, id);
    let Some(k) = place else {
        return Ok(b);
    };
    let queued = is_queued(&b.parts, id);
    let t = submitted_at(&b.parts, k);
    let due = deliverable(t, trigger, goal);
    if !queued & due {
        return enqueue(b, redelivery(t.entry, trigger, goal));
    }
    Ok(b)
}

// A fee upgrade where the current variant is acknowledged.
#[tactic(auto, unfolding(rules::specs::Calls::Offer::goal_for))]
pub fn goal_for(e: SubmittedEntry) -> SubmissionDeliveryGoal
    ensures { result ≡ goal_for e }
{
    if current_variant_acknowledged(e) {
        return SubmissionDeliveryGoal::FeeUpgrade;
    }
    SubmissionDeliveryGoal::EnsureBroadcast
}
