// `relinquish_completed_attempt`: nothing changes.
#![tactic(auto)]

ghost use Rattle.std.specs.Prelude.{◌≡◌};
ghost use Rattle.book.specs.Model.{view};
ghost use Rattle.rules.specs.Steps.{run_book};
ghost use Rattle.rules.specs.Calls.RelinquishCompletedAttempt.{relinquish_completed_attempt};
ghost use Rattle.part_replies.specs.Reply.{reply};
ghost use Rattle.call_relinquish_completed_attempt.specs.Relinquishing.{relinquished};

use book::sound::SoundBook;
use book::{BookData, Token};
use book_answers::SubmissionAttemptStatus;
use part_attempt_answers::inactive;
use part_lookup::{AttemptPlace, find_attempt};
use part_replies::Reply;

pub fn relinquish_completed_attempt_sound(
    b: SoundBook,
    t: Token,
) -> Reply<SubmissionAttemptStatus, BookData>
    ensures { result ≡ reply b.parts (run_book (relinquish_completed_attempt t.0) (view b.parts)) }
{
    let place = find_attempt(&b.parts, t);
    inactive(b.parts, place, relinquished(place))
}

// The status of a token that was issued.
fn relinquished(p: AttemptPlace) -> SubmissionAttemptStatus
    ensures { result ≡ relinquished p }
{
    match p {
        AttemptPlace::SetAside(_) => SubmissionAttemptStatus::Applied,
        _ => SubmissionAttemptStatus::Stale,
    }
}
