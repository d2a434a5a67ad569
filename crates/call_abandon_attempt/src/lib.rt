// `abandon_attempt`: the submission of a live attempt is removed and retired.
#![tactic(auto)]

ghost use Rattle.std.specs.Prelude.{◌<◌, ◌≡◌, length};
ghost use Rattle.book.specs.Model.{view};
ghost use Rattle.rules.specs.Steps.{run_book};
ghost use Rattle.rules.specs.Calls.AbandonAttempt.{abandon_live, abandon_attempt};
ghost use Rattle.part_replies.specs.Reply.{reply};
ghost use Rattle.part_attempt_answers.specs.Live.{at};

use book::sound::SoundBook;
use book::{BookData, SubmittedTx, Token};
use book_answers::SubmissionAttemptStatus;
use part_attempt_answers::{attempt_place, inactive, live_place};
use part_change::{remove_submitted, retire};
use part_lookup::submitted_at;
use part_replies::{Reply, done, refused};

// The look-up of the token is that of the other attempt calls: a shared one would be told the rest of the call, with its contract.
pub fn abandon_attempt_sound(b: SoundBook, t: Token) -> Reply<SubmissionAttemptStatus, BookData>
    ensures { result ≡ reply b.parts (run_book (abandon_attempt t.0) (view b.parts)) }
{
    let place = attempt_place(b, t);
    let Some(k) = live_place(place) else {
        return inactive(b.parts, place, SubmissionAttemptStatus::Stale);
    };
    abandon_live(b, k)
}

// By value, as `part_attempt_answers::attempt_place` is.
fn submission_at(b: SoundBook, k: usize) -> SubmittedTx
    requires { k < length (view b.parts).submitted }
    ensures { result ≡ at (view b.parts) k }
{
    submitted_at(&b.parts, k)
}

// A place is one of this book only: a struct of both would lend or copy the book.
fn abandon_live(b: SoundBook, k: usize) -> Reply<SubmissionAttemptStatus, BookData>
    requires { k < length (view b.parts).submitted }
    ensures { result ≡ reply b.parts (run_book (abandon_live (at (view b.parts) k)) (view b.parts)) }
{
    let id = submission_at(b, k).entry.id;
    let rest = remove_submitted(b.parts, id);
    match retire(rest, id) {
        Ok(left) => done(left, SubmissionAttemptStatus::Applied),
        Err(why) => refused(b.parts, why),
    }
}
