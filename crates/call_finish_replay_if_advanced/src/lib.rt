// `finish_replay_if_advanced`: the replay epoch ends at a height above the one held.
#![tactic(auto)]

ghost use Rattle.std.specs.Prelude.{◌≡◌};
ghost use Rattle.book.specs.Model.{view};
ghost use Rattle.rules.specs.Steps.{run_book};
ghost use Rattle.rules.specs.Calls.Replay.{finish_replay_if_advanced};
ghost use Rattle.part_replies.specs.Reply.{reply};

use book::sound::SoundBook;
use book::{BookData, Height};
use part_change::set_epoch;
use part_replay::finish_if_advanced;
use part_replies::{Reply, done};

pub fn finish_replay_if_advanced_sound(b: SoundBook, h: Height) -> Reply<(), BookData>
    ensures { result ≡ reply b.parts (run_book (finish_replay_if_advanced h) (view b.parts)) }
{
    let left = finish_if_advanced(b.parts.replay_epoch, h);
    let out = set_epoch(b.parts, left);
    done(out, ())
}
