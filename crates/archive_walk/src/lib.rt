// Whether bytes are an archive, and where its parts stand, without making the book.
#![tactic(auto)]

mod section;
mod skip;

ghost use Rattle.std.specs.Prelude.{◌≡◌};
ghost use Rattle.archive_form.specs.Parse.{parse_whole};
ghost use Rattle.archive_walk.specs.Walk.{walked, WalksBook};

use archive_bundle_read::part::read_height;
use archive_read::section::{read_numbers, read_replays, read_retirements};
use book::{SubmissionId, Token};
use codec_cursor::FAR;
use section::{walk_queue, walk_retained};

// What the walk finds of an archive: the book's two numbers and the places of its parts, of each submission and each queue entry,
// with the place behind the last one, and of the sections behind the submissions. Counts beside arrays: the library has no heap.
#[derive(Clone, Copy)]
pub struct Walk {
    pub next_delivery_attempt_token: Token,
    pub next_submission_id: SubmissionId,
    pub submitted_count: usize,
    pub submitted: [usize; 17],
    pub queue: usize,
    pub pending_count: usize,
    pub pending_deliveries: [usize; 17],
    pub retired: usize,
    pub rollback: usize,
    pub replayed: usize,
}

// Sections in their order.
fn walk_book(s: &[u8], at: &mut usize) -> Walk
    ensures { WalksBook s.now at.old result at.new }
{
    let n = read_numbers(s, &mut *at);
    let next_delivery_attempt_token = n.token;
    let next_submission_id = n.id;
    let t = walk_retained(s, &mut *at, next_delivery_attempt_token);
    let queue = *at;
    let q = walk_queue(s, &mut *at);
    let retired = *at;
    read_retirements(s, &mut *at);
    let rollback = *at;
    read_height(s, &mut *at);
    let replayed = *at;
    read_replays(s, at, &t.ids[..t.count]);
    let submitted = t.places;
    let pending_deliveries = q.places;
    Walk {
        next_delivery_attempt_token,
        next_submission_id,
        submitted_count: t.count,
        submitted,
        queue,
        pending_count: q.count,
        pending_deliveries,
        retired,
        rollback,
        replayed,
    }
}

// Of bytes that are no archive, the place of the first item that is cut short or breaks a rule.
pub fn walk_archive(s: &[u8]) -> Result<Walk, usize>
    ensures { result ≡ walked (parse_whole s.now 0) }
{
    let mut at: usize = 0;
    let walk = walk_book(s, &mut at);
    if at < s.len() {
        return Err(at);
    }
    if at < FAR {
        return Ok(walk);
    }
    Err(at - FAR)
}
