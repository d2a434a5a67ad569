// `begin_replay`: a replay epoch begins at a height, unless it is the one held.
#![tactic(auto)]

ghost use Rattle.std.specs.Prelude.{◌≡◌};
ghost use Rattle.book.specs.Model.{view};
ghost use Rattle.rules.specs.Steps.{run_book};
ghost use Rattle.rules.specs.Calls.Replay.{begin_replay};
ghost use Rattle.part_replies.specs.Reply.{reply};

use book::sound::SoundBook;
use book::{BookData, Height};
use part_change::set_epoch;
use part_replay::begin;
use part_replies::{Reply, done};

pub fn begin_replay_sound(b: SoundBook, h: Height) -> Reply<bool, BookData>
    ensures { result ≡ reply b.parts (run_book (begin_replay h) (view b.parts)) }
{
    let begun = begin(b.parts.replay_epoch, h);
    let out = set_epoch(b.parts, begun.epoch);
    done(out, begun.started)
}
