// `collect_rollback_replay_ids`: the named submissions that are not marked as replayed are marked and opened again, and all named ones
// are offered.
#![tactic(auto)]

ghost use Rattle.std.specs.Prelude.{[], ◌≡◌, ◌≤◌};
ghost use Rattle.book.specs.Model.{view, back, id_list, id_cells};
ghost use Rattle.rules.specs.Rule.{ended, reopen as opened};
ghost use Rattle.rules.specs.Steps.{revise_book, replay_book, run_book};
ghost use Rattle.rules.specs.Calls.CollectRollbackReplayIds.{offer_again, collect_rollback_replay_ids};
ghost use Rattle.part_ids.specs.Ids.{without_ids};
ghost use Rattle.part_replies.specs.Reply.{reply, outcome_by};
ghost use Rattle.call_collect_rollback_replay_ids.specs.Marking.{mark_one};
ghost use Rattle.call_collect_rollback_replay_ids.specs.Collecting.{mark_all, named_in};

use book::refusal::Refusal;
use book::sound::SoundBook;
use book::{BookData, DeliveryTrigger, Ids, SubmissionDeliveryGoal, SubmissionId, SubmittedTx};
use part_change::{set_epoch, store_submitted};
use part_ids::{among, items, without};
use part_lookup::{position_of, submitted_at, submitted_ids};
use part_offer::offer;
use part_replay::mark_replayed;
use part_replies::{Reply, refused, settled};
use part_submitted::revise::reopen;

// The id is among the replayed ones, if its submission is retained.
fn note_replayed(b: SoundBook, id: SubmissionId) -> SoundBook
    ensures { result.parts ≡ back (replay_book id.0 (view b.parts)) }
{
    let place = position_of(&b.parts, id);
    let Some(k) = place else {
        return b;
    };
    let marked = mark_replayed(b.parts.replay_epoch, id);
    let parts = set_epoch(b.parts, marked.epoch);
    SoundBook { parts }
}

// The submission of the id is Active, and nothing of it is acknowledged.
fn reopen_submitted(b: SoundBook, id: SubmissionId) -> SoundBook
    ensures { result.parts ≡ back (revise_book id.0 opened (view b.parts)) }
{
    let place = position_of(&b.parts, id);
    let Some(k) = place else {
        return b;
    };
    let t = submitted_at(&b.parts, k);
    let entry = reopen(t.entry);
    let parts = store_submitted(b.parts, k, SubmittedTx { entry, ..t });
    SoundBook { parts }
}

fn mark_one(b: SoundBook, id: SubmissionId) -> SoundBook
    ensures { run_book (mark_one id.0) (view b.parts) ≡ ended (view result.parts) [] tt }
{
    reopen_submitted(note_replayed(b, id), id)
}

fn mark_each(b: SoundBook, fresh: &[u64]) -> SoundBook
    ensures { run_book (mark_all fresh.now) (view b.parts) ≡ ended (view result.parts) [] tt }
{
    let mut out = b;
    for id in fresh {
        out = mark_one(out, SubmissionId(*id));
    }
    out
}

fn offer_again(b: SoundBook, named: &[u64]) -> Result<SoundBook, Refusal>
    ensures { run_book (offer_again named.now) (view b.parts) ≡ outcome_by tt result }
{
    let mut out = b;
    for id in named {
        out = offer(
            out,
            SubmissionId(*id),
            DeliveryTrigger::Rollback,
            SubmissionDeliveryGoal::EnsureBroadcast,
        )?;
    }
    Ok(out)
}

// The retained ids that the list names, in retained order.
fn named_ids(b: &SoundBook, ids: &[u64]) -> Ids<16>
    ensures { result ≡ id_cells 16 (named_in ids.now (view b.now.parts)) }
{
    among(&submitted_ids(&b.parts), ids)
}

// Those of the ids that are not marked as replayed. `without` asks that the count is in range (part_ids says why).
fn unmarked(b: &SoundBook, named: &Ids<16>) -> Ids<16>
    requires { named.now.count ≤ 16 }
    ensures { result ≡ id_cells 16 (without_ids (view b.now.parts).replayed (id_list named.now)) }
{
    without(named, items(&b.parts.replay_epoch.replayed_submission_ids))
}

pub fn collect_rollback_replay_ids_sound(b: SoundBook, ids: &[u64]) -> Reply<(), BookData>
    ensures { result ≡ reply b.parts (run_book (collect_rollback_replay_ids ids.now) (view b.parts)) }
{
    if ids.len() > 64 {
        return refused(b.parts, Refusal::BadList);
    }
    let named = named_ids(&b, ids);
    let fresh = unmarked(&b, &named);
    let marked = mark_each(b, items(&fresh));
    settled(b.parts, offer_again(marked, items(&named)), ())
}
