// The submissions and the queue: where each entry stands.
ghost use Rattle.archive_walk.specs.Sections.{WalksSubmitted, WalksRetained, WalksQueue};

use crate::skip::{skip_delivery, skip_facts};
use archive_entry_read::attempt::read_slots;
use archive_entry_read::submission::read_new_id;
use book::{AttemptSlots, SubmissionId, Token};
use codec_cursor::read_count;

// Of a submission what those behind it may not have again.
#[derive(Clone, Copy)]
pub struct Seen {
    pub id: SubmissionId,
    pub slots: AttemptSlots,
}

// Counts beside arrays, here and in `Queue`: the library has no heap.
#[derive(Clone, Copy)]
pub struct Retained {
    pub count: usize,
    pub ids: [u64; 16],
    pub places: [usize; 17],
}

#[derive(Clone, Copy)]
pub struct Queue {
    pub count: usize,
    pub places: [usize; 17],
}

fn walk_submitted(s: &[u8], at: &mut usize, next: Token, ids: &[u64], tokens: &[u64]) -> Seen
    ensures { WalksSubmitted next.0 ids.now tokens.now s.now at.old result.id result.slots at.new }
{
    let id = read_new_id(s, &mut *at, ids);
    let slots = read_slots(s, &mut *at, next, tokens);
    skip_facts(s, at);
    Seen { id, slots }
}

pub fn walk_retained(s: &[u8], at: &mut usize, next: Token) -> Retained
    ensures { WalksRetained next.0 s.now at.old result.count result.ids result.places at.new }
{
    let n = read_count(s, &mut *at, 16) as usize;
    let mut ids = [0u64; 16];
    let mut tokens = [0u64; 32];
    let mut places = [0usize; 17];
    places[0] = *at;
    let mut m: usize = 0;
    // As in `read_retained`, whose items are not made here: what both keep of a submission are five lines, fewer than a type for them.
    for i in 0..n {
        let x = walk_submitted(s, &mut *at, next, &ids[..i], &tokens[..m]);
        ids[i] = x.id.0;
        tokens[m] = x.slots.active_attempt.attempt.token.0;
        m += x.slots.active_attempt.present as usize;
        tokens[m] = x.slots.completed_attempt.attempt.token.0;
        m += x.slots.completed_attempt.present as usize;
        places[i + 1] = *at;
    }
    Retained {
        count: n,
        ids,
        places,
    }
}

pub fn walk_queue(s: &[u8], at: &mut usize) -> Queue
    ensures { WalksQueue s.now at.old result.count result.places at.new }
{
    let n = read_count(s, &mut *at, 16) as usize;
    let mut places = [0usize; 17];
    places[0] = *at;
    for i in 0..n {
        skip_delivery(s, &mut *at);
        places[i + 1] = *at;
    }
    Queue { count: n, places }
}
