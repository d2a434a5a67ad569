// The archive reader: any bytes give a book, or refusal 13 with its place.
#![tactic(auto)]

pub mod section;

ghost use Rattle.std.specs.Prelude.{◌≡◌, true, false};
ghost use Rattle.archive_form.specs.Parse.{read_archive};
ghost use Rattle.archive_read.specs.Archive.{ReadsBook, zero_book, Answered};

use archive_bundle_read::part::read_height;
use book::{BookData, Height, Ids, PendingDelivery, ReplayEpoch, SubmissionId, SubmittedTx, Token};
use codec_cursor::FAR;

// `place` is that of a refusal; with a book it is 0. With a refusal the book is zero. A mark beside the book, and no `Result` of one,
// which copies the 60 KB of a book once more at each call.
#[derive(Clone, Copy)]
pub struct ReadArchive {
    pub ok: bool,
    pub place: usize,
    pub book: BookData,
}

// The empty book whose two numbers are 0.
fn zero_book() -> BookData
    ensures { result ≡ zero_book }
{
    let t = SubmittedTx::zero();
    let d = PendingDelivery::zero();
    let retired_submission_ids = Ids {
        count: 0,
        items: [0; 64],
    };
    let replayed_submission_ids = Ids {
        count: 0,
        items: [0; 16],
    };
    let replay_epoch = ReplayEpoch {
        rollback_height: None,
        replayed_submission_ids,
    };
    BookData {
        next_delivery_attempt_token: Token(0),
        next_submission_id: SubmissionId(0),
        submitted_count: 0,
        submitted: [t; 16],
        pending_count: 0,
        pending_deliveries: [d; 16],
        retired_submission_ids,
        replay_epoch,
    }
}

fn refused(place: usize) -> ReadArchive
    ensures { result ≡ record { ok = false; place = place; book = zero_book } }
{
    let book = zero_book();
    ReadArchive {
        ok: false,
        place,
        book,
    }
}

// Sections in their order.
fn read_book(s: &[u8], at: &mut usize) -> BookData
    ensures { ReadsBook s.now at.old result at.new }
{
    let n = section::read_numbers(s, &mut *at);
    let next_delivery_attempt_token = n.token;
    let next_submission_id = n.id;
    let t = section::read_retained(s, &mut *at, next_delivery_attempt_token);
    let q = section::read_queue(s, &mut *at);
    let retired_submission_ids = section::read_retirements(s, &mut *at);
    let rollback_height = read_height(s, &mut *at);
    let ids = t.ids;
    let replayed_submission_ids = section::read_replays(s, at, &ids[..t.count]);
    let submitted = t.items;
    let pending_deliveries = q.items;
    let replay_epoch = ReplayEpoch {
        rollback_height,
        replayed_submission_ids,
    };
    BookData {
        next_delivery_attempt_token,
        next_submission_id,
        submitted_count: t.count,
        submitted,
        pending_count: q.count,
        pending_deliveries,
        retired_submission_ids,
        replay_epoch,
    }
}

pub fn read_archive(s: &[u8]) -> ReadArchive
    ensures { Answered (read_archive s.now) result }
{
    let mut at: usize = 0;
    let book = read_book(s, &mut at);
    if at < s.len() {
        return refused(at);
    }
    if at < FAR {
        return ReadArchive {
            ok: true,
            place: 0,
            book,
        };
    }
    refused(at - FAR)
}
