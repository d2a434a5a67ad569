// `drain_retirements`: the retired ids are handed out, and the book forgets them.
#![tactic(auto)]

ghost use Rattle.std.specs.Prelude.{◌≡◌};
ghost use Rattle.book.specs.Model.{view};
ghost use Rattle.rules.specs.Steps.{run_book};
ghost use Rattle.rules.specs.Calls.DrainRetirements.{drain_retirements};
ghost use Rattle.part_replies.specs.Reply.{ids_reply};

use book::sound::SoundBook;
use book::{BookData, Ids};
use part_change::clear_retired;
use part_replies::{Reply, done};

pub fn drain_retirements_sound(b: SoundBook) -> Reply<Ids<64>, BookData>
    ensures { result ≡ ids_reply b.parts (run_book drain_retirements (view b.parts)) }
{
    let drained = clear_retired(b.parts);
    done(drained, b.parts.retired_submission_ids)
}
