// `queue_fee_readiness`: the submissions that are Active and whose fee is unresolved are offered again.
#![tactic(auto)]

ghost use Rattle.std.specs.Prelude.{◌≡◌};
ghost use Rattle.book.specs.Model.{view};
ghost use Rattle.rules.specs.Steps.{run_book};
ghost use Rattle.rules.specs.Calls.QueueFeeReadiness.{queue_fee_readiness};
ghost use Rattle.part_replies.specs.Reply.{reply, outcome_by};
ghost use Rattle.call_queue_fee_readiness.specs.Readiness.{ready_one};

use book::refusal::Refusal;
use book::sound::SoundBook;
use book::{BookData, DeliveryTrigger, SubmittedTx};
use part_lookup::submitted;
use part_offer::{goal_for, offer};
use part_replies::{Reply, done, refused};
use part_submitted::entry::{active_entry, fee_unresolved};

// One submission: Active and with an unresolved fee, or left alone.
fn offer_ready(b: SoundBook, t: SubmittedTx) -> Result<SoundBook, Refusal>
    ensures { run_book (ready_one t) (view b.parts) ≡ outcome_by tt result }
{
    let e = t.entry;
    let active = active_entry(e);
    let unresolved = fee_unresolved(e);
    if active & unresolved {
        return offer(b, e.id, DeliveryTrigger::ProviderReadiness, goal_for(e));
    }
    Ok(b)
}

// The submissions of b in their order. The loop stands here, and without `?`: a function of its own would hand the book on in one more `Result`, by copies of it.
pub fn queue_fee_readiness_sound(b: SoundBook) -> Reply<(), BookData>
    ensures { result ≡ reply b.parts (run_book queue_fee_readiness (view b.parts)) }
{
    let mut out = b;
    let retained = submitted(&b.parts);
    for t in retained {
        match offer_ready(out, *t) {
            Ok(next) => out = next,
            Err(refusal) => return refused(b.parts, refusal),
        }
    }
    done(out.parts, ())
}
