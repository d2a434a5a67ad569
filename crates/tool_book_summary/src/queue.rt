// Which submission a queue entry is a delivery of, as a drain would find it.
ghost use Rattle.std.specs.Prelude.{◌≡◌};
ghost use Rattle.base_lists.specs.Bytes.{eqs};
ghost use Rattle.std.specs.List.{list_any};
ghost use Rattle.rules.specs.Parts.{intent_of};
ghost use Rattle.tool_book_summary.specs.Queue.{is_for, same_new, is_taken, is_new};

use book::{PendingDelivery, PendingSubmissionIntent, SubmittedEntry, SubmittedTx};
use part_submitted::fingerprint::intent_of;

fn has_intent(e: &SubmittedEntry, p: PendingSubmissionIntent) -> bool
    ensures { result ≡ eqs e.now.intent.intent_fingerprint (intent_of p) }
{
    e.intent.intent_fingerprint == intent_of(p)
}

// The queue entry is a delivery of the submission.
#[tactic(auto, unfolding(crate::specs::Queue::is_for))]
fn is_for(t: &SubmittedTx, d: &PendingDelivery) -> bool
    ensures { result ≡ is_for t.now d.now }
{
    match d.intent.id {
        None => has_intent(&t.entry, d.intent),
        Some(i) => t.entry.id == i,
    }
}

// One of the queue entries is a delivery of the submission.
pub fn waits(t: &SubmittedTx, queue: &[PendingDelivery]) -> bool
    ensures { result ≡ list_any (is_for t.now) queue.now }
{
    queue.iter().any(|d| is_for(t, d))
}

// One of the submissions takes the queue entry.
fn is_taken(d: &PendingDelivery, submitted: &[SubmittedTx]) -> bool
    ensures { result ≡ is_taken submitted.now d.now }
{
    submitted.iter().any(|t| is_for(t, d))
}

// Both are new, and of one intent.
fn same_new(d: &PendingDelivery, e: &PendingDelivery) -> bool
    ensures { result ≡ same_new d.now e.now }
{
    let f = intent_of(d.intent);
    let g = intent_of(e.intent);
    d.intent.id.is_none() & e.intent.id.is_none() & (f == g)
}

// One of the queue entries behind d is new and of one intent with it.
fn repeats(d: &PendingDelivery, behind: &[PendingDelivery]) -> bool
    ensures { result ≡ list_any (same_new d.now) behind.now }
{
    behind.iter().any(|e| same_new(d, e))
}

// The queue entry is a payment of its own: no submission takes it, and none of the queue entries behind it repeats it.
pub fn is_new(d: &PendingDelivery, submitted: &[SubmittedTx], behind: &[PendingDelivery]) -> bool
    ensures { result ≡ is_new submitted.now behind.now d.now }
{
    !is_taken(d, submitted) & !repeats(d, behind)
}
