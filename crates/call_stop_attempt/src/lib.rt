// `stop_attempt`: the live attempt is set aside.
#![tactic(auto)]

ghost use Rattle.std.specs.Prelude.{◌<◌, ◌≡◌, length};
ghost use Rattle.book.specs.Model.{view};
ghost use Rattle.rules.specs.Steps.{run_book};
ghost use Rattle.rules.specs.Calls.StopAttempt.{stop_live, stop_attempt};
ghost use Rattle.part_replies.specs.Reply.{reply};
ghost use Rattle.part_attempt_answers.specs.Live.{at};

use book::sound::SoundBook;
use book::{BookData, Token};
use book_answers::SubmissionAttemptStatus;
use part_attempt_answers::{attempt_place, inactive, live_place};
use part_replies::{Reply, done};
use part_slots::stop_in_place;

// The look-up of the token is that of the other attempt calls: a shared one would be told the rest of the call, with its contract.
pub fn stop_attempt_sound(b: SoundBook, t: Token) -> Reply<SubmissionAttemptStatus, BookData>
    ensures { result ≡ reply b.parts (run_book (stop_attempt t.0) (view b.parts)) }
{
    let place = attempt_place(b, t);
    let Some(k) = live_place(place) else {
        return inactive(b.parts, place, SubmissionAttemptStatus::Stale);
    };
    stop_live(b, k)
}

// A place is one of this book only: a struct of both would lend or copy the book.
fn stop_live(mut b: SoundBook, k: usize) -> Reply<SubmissionAttemptStatus, BookData>
    requires { k < length (view b.parts).submitted }
    ensures { result ≡ reply b.parts (run_book (stop_live (at (view b.parts) k)) (view b.parts)) }
{
    let s = b.parts.submitted[k];
    let mut next = s;
    stop_in_place(&mut next.slots);
    b.parts.submitted[k] = next;
    done(b.parts, SubmissionAttemptStatus::Applied)
}
