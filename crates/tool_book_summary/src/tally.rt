// All payments of a book in totals.
ghost use Rattle.std.specs.Prelude.{◌≡◌};
ghost use Rattle.std.specs.List.{fold};
ghost use Rattle.tool_book_summary.specs.Tally.{payment_of, add_retained, add_new, add_queued, totals_of};

use crate::queue::{is_new, waits};
use book::{PendingDelivery, SubmittedTx};
use tool_payments::counts::{add_payment, no_totals};
use tool_payments::payments::{queued_payment, retained_payment};
use tool_payments::{Payment, Totals};

// The payment that a submission is, beside the queue.
pub fn payment_of(t: &SubmittedTx, queue: &[PendingDelivery]) -> Payment
    ensures { result ≡ payment_of queue.now t.now }
{
    retained_payment(t, waits(t, queue))
}

// The payments that the submissions are.
fn add_retained(t: Totals, submitted: &[SubmittedTx], queue: &[PendingDelivery]) -> Totals
    ensures { result ≡ fold (add_retained queue.now) t submitted.now }
{
    submitted
        .iter()
        .fold(t, |sum, x| add_payment(sum, payment_of(x, queue)))
}

// The queue entry d, with the queue behind it, if it is a payment of its own.
fn add_new(
    t: Totals,
    d: &PendingDelivery,
    submitted: &[SubmittedTx],
    behind: &[PendingDelivery],
) -> Totals
    ensures { result ≡ add_new submitted.now behind.now t d.now }
{
    if is_new(d, submitted, behind) {
        return add_payment(t, queued_payment(d));
    }
    t
}

// The payments of their own in the queue.
fn add_queued(t: Totals, submitted: &[SubmittedTx], queue: &[PendingDelivery]) -> Totals
    ensures { result ≡ add_queued submitted.now t queue.now }
{
    let mut sum = t;
    // A loop: a turn takes the queue behind its entry too, which no step of a fold does.
    for (i, d) in queue.iter().enumerate() {
        sum = add_new(sum, d, submitted, &queue[i + 1..]);
    }
    sum
}

// All of the submissions and of the queue.
#[tactic(auto, unfolding(crate::specs::Tally::totals_of))]
pub fn totals(submitted: &[SubmittedTx], queue: &[PendingDelivery]) -> Totals
    ensures { result ≡ totals_of submitted.now queue.now }
{
    let retained = add_retained(no_totals(), submitted, queue);
    add_queued(retained, submitted, queue)
}
