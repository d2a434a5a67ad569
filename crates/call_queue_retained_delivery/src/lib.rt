// `queue_retained_delivery`: a retained submission is offered again.
#![tactic(auto)]

ghost use Rattle.std.specs.Prelude.{◌≡◌};
ghost use Rattle.book.specs.Model.{view};
ghost use Rattle.rules.specs.Steps.{run_book};
ghost use Rattle.rules.specs.Calls.QueueRetainedDelivery.{queue_retained_delivery};
ghost use Rattle.part_replies.specs.Reply.{reply};

use book::sound::SoundBook;
use book::{BookData, DeliveryTrigger, SubmissionDeliveryGoal, SubmissionId};
use part_offer::offer;
use part_replies::{Reply, settled};

pub fn queue_retained_delivery_sound(
    b: SoundBook,
    id: SubmissionId,
    trigger: DeliveryTrigger,
    goal: SubmissionDeliveryGoal,
) -> Reply<(), BookData>
    ensures { result ≡ reply b.parts (run_book (queue_retained_delivery id.0 trigger goal) (view b.parts)) }
{
    settled(b.parts, offer(b, id, trigger, goal), ())
}
