// `replay_rollback_height`: the height of the replay epoch, if one is held; nothing changes.
#![tactic(auto)]

ghost use Rattle.std.specs.Prelude.{◌≡◌};
ghost use Rattle.book.specs.Model.{view};
ghost use Rattle.rules.specs.Steps.{run_book};
ghost use Rattle.rules.specs.Calls.Replay.{replay_rollback_height};
ghost use Rattle.part_replies.specs.Reply.{reply};

use book::sound::SoundBook;
use book::{BookData, Height};
use part_replay::rollback_height;
use part_replies::Reply;

pub fn replay_rollback_height_sound(b: SoundBook) -> Reply<Option<Height>, BookData>
    ensures { result ≡ reply b.parts (run_book replay_rollback_height (view b.parts)) }
{
    let h = rollback_height(b.parts.replay_epoch);
    Reply {
        answer: Ok(h),
        book: b.parts,
    }
}
