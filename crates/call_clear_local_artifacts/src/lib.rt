// `clear_local_artifacts`: all submissions are withdrawn, the queue is emptied and the replay epoch ended.
#![tactic(auto)]

ghost use Rattle.std.specs.Prelude.{◌≡◌, map};
ghost use Rattle.base_lists.specs.Lists.{rising};
ghost use Rattle.book.specs.Model.{view, id_cells};
ghost use Rattle.book.specs.Sound.{id_of};
ghost use Rattle.rules.specs.Steps.{run_book};
ghost use Rattle.rules.specs.Calls.ClearLocalArtifacts.{clear_local_artifacts};
ghost use Rattle.part_replies.specs.Reply.{reply};

use book::sound::SoundBook;
use book::{BookData, Ids};
use part_change::{clear_pending, set_epoch};
use part_ids::{items, rising};
use part_lookup::submitted_ids;
use part_replay::clear;
use part_replies::{Reply, done, refused};
use part_withdraw::withdraw_each;

// The ids of all submissions, rising.
fn all_to_remove(b: &SoundBook) -> Ids<16>
    ensures { result ≡ id_cells 16 (rising (map id_of (view b.now.parts).submitted)) }
{
    rising(&submitted_ids(&b.parts))
}

pub fn clear_local_artifacts_sound(b: SoundBook) -> Reply<(), BookData>
    ensures { result ≡ reply b.parts (run_book clear_local_artifacts (view b.parts)) }
{
    let gone = all_to_remove(&b);
    match withdraw_each(b, items(&gone)) {
        Ok(kept) => {
            let unqueued = clear_pending(kept.parts);
            let cleared = set_epoch(unqueued, clear());
            done(cleared, ())
        }
        Err(r) => refused(b.parts, r),
    }
}
