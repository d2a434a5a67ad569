// `queue_rebroadcast_epoch`: the submissions of a list of ids are offered again, in its order.
#![tactic(auto)]

ghost use Rattle.std.specs.Prelude.{◌≡◌};
ghost use Rattle.book.specs.Model.{view};
ghost use Rattle.rules.specs.Steps.{run_book};
ghost use Rattle.rules.specs.Calls.QueueRebroadcastEpoch.{rebroadcast as rebroadcastAll, queue_rebroadcast_epoch};
ghost use Rattle.part_replies.specs.Reply.{reply, outcome_by};
ghost use Rattle.call_queue_rebroadcast_epoch.specs.Rebroadcast.{rebroadcast_one};

use book::refusal::Refusal;
use book::sound::SoundBook;
use book::{BookData, DeliveryTrigger, SubmissionId};
use part_lookup::{position_of, submitted_at};
use part_offer::{goal_for, offer};
use part_replies::{Reply, refused, settled};

// One id of the list.
fn rebroadcast_one(
    b: SoundBook,
    id: SubmissionId,
    trigger: DeliveryTrigger,
) -> Result<SoundBook, Refusal>
    ensures { run_book (rebroadcast_one trigger id.0) (view b.parts) ≡ outcome_by tt result }
{
    let place = position_of(&b.parts, id);
    let Some(k) = place else {
        return Ok(b);
    };
    let t = submitted_at(&b.parts, k);
    offer(b, id, trigger, goal_for(t.entry))
}

fn rebroadcast(b: SoundBook, ids: &[u64], trigger: DeliveryTrigger) -> Result<SoundBook, Refusal>
    ensures { run_book (rebroadcastAll trigger ids.now) (view b.parts) ≡ outcome_by tt result }
{
    let mut out = b;
    for id in ids {
        out = rebroadcast_one(out, SubmissionId(*id), trigger)?;
    }
    Ok(out)
}

pub fn queue_rebroadcast_epoch_sound(
    b: SoundBook,
    ids: &[u64],
    trigger: DeliveryTrigger,
) -> Reply<(), BookData>
    ensures { result ≡ reply b.parts (run_book (queue_rebroadcast_epoch ids.now trigger) (view b.parts)) }
{
    if ids.len() > 64 {
        return refused(b.parts, Refusal::BadList);
    }
    settled(b.parts, rebroadcast(b, ids, trigger), ())
}
