// `queue`: a delivery is put into the queue.
#![tactic(auto)]

ghost use Rattle.std.specs.Prelude.{◌≡◌};
ghost use Rattle.book.specs.Model.{view};
ghost use Rattle.rules.specs.Steps.{run_book};
ghost use Rattle.rules.specs.Calls.Queue.{queue as queueOf};
ghost use Rattle.part_replies.specs.Reply.{reply};

use book::refusal::Refusal;
use book::sound::SoundBook;
use book::{BookData, PendingDelivery};
use book_sound::is_sound_delivery;
use part_offer::enqueue;
use part_replies::{Reply, refused, settled};

// Refused 3 where the delivery is out of range or damaged.
pub fn queue_sound(b: SoundBook, d: PendingDelivery) -> Reply<(), BookData>
    ensures { result ≡ reply b.parts (run_book (queueOf d) (view b.parts)) }
{
    let sound = is_sound_delivery(&d);
    if !sound {
        return refused(b.parts, Refusal::BadValue);
    }
    settled(b.parts, enqueue(b, d), ())
}
