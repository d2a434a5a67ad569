// `summary`: the numbers of the book, and how many entries its lists have; nothing changes.
#![tactic(auto)]

ghost use Rattle.std.specs.Prelude.{◌≡◌};
ghost use Rattle.book.specs.Model.{view};
ghost use Rattle.rules.specs.Steps.{run_book};
ghost use Rattle.rules.specs.Calls.Summary.{summary as summaryRule};
ghost use Rattle.part_replies.specs.Reply.{reply};

use book::BookData;
use book::sound::SoundBook;
use book_answers::BookSummary;
use part_replies::{Reply, done};

pub fn summary_sound(b: SoundBook) -> Reply<BookSummary, BookData>
    ensures { result ≡ reply b.parts (run_book summaryRule (view b.parts)) }
{
    let epoch = b.parts.replay_epoch;
    let summary = BookSummary {
        next_delivery_attempt_token: b.parts.next_delivery_attempt_token,
        next_submission_id: b.parts.next_submission_id,
        submitted_count: b.parts.submitted_count,
        pending_count: b.parts.pending_count,
        retired_count: b.parts.retired_submission_ids.count,
        replayed_count: epoch.replayed_submission_ids.count,
        rollback_height: epoch.rollback_height,
    };
    done(b.parts, summary)
}
