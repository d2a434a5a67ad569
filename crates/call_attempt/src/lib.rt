// `attempt`: the live attempt itself; a token that is not live has none.
#![tactic(auto)]

ghost use Rattle.std.specs.Prelude.{◌≡◌};
ghost use Rattle.book.specs.Model.{view};
ghost use Rattle.rules.specs.Steps.{run_book};
ghost use Rattle.rules.specs.Calls.Attempt.{attempt as attemptRule};
ghost use Rattle.part_replies.specs.Reply.{attempt_reply};

use book::sound::SoundBook;
use book::{BookData, OptionalAttempt, Token};
use part_attempt_answers::live_place;
use part_lookup::{find_attempt, submitted_at};
use part_replies::{Reply, done};
use part_slots::filled;

// Paper 01: an optional attempt is a mark with the attempt beside it.
pub fn attempt_sound(b: SoundBook, t: Token) -> Reply<OptionalAttempt, BookData>
    ensures { result ≡ attempt_reply b.parts (run_book (attemptRule t.0) (view b.parts)) }
{
    let place = find_attempt(&b.parts, t);
    let Some(k) = live_place(place) else {
        return done(b.parts, OptionalAttempt::zero());
    };
    let s = submitted_at(&b.parts, k);
    done(b.parts, filled(s.slots.active_attempt.attempt))
}
