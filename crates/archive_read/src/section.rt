// The sections of an archive, each after its count.
ghost use Rattle.std.specs.Prelude.{◌≡◌};
ghost use Rattle.codec_cursor.specs.Cursor.{Reads};
ghost use Rattle.codec_cursor.specs.Cells.{ReadsCells};
ghost use Rattle.book.specs.Zero.{zero_delivery};
ghost use Rattle.archive_form.specs.Parse.{above, parse_numbers, parse_delivery, parse_retired, parse_replayed};
ghost use Rattle.archive_read.specs.Sections.{ReadsRetained};

use archive_bundle_read::each::read_list;
use archive_entry_read::delivery::read_delivery;
use archive_entry_read::submission::{read_new_id, read_submitted};
use book::{Ids, PendingDelivery, SubmissionId, SubmittedTx, Token};
use codec_cursor::{pass, read_count, read_number};

#[derive(Clone, Copy)]
pub struct Numbers {
    pub token: Token,
    pub id: SubmissionId,
}

// Counts beside arrays, here and in `Queue`: the library has no heap. `ids` stands beside `items`, since readers are lent it as a slice.
#[derive(Clone, Copy)]
pub struct Retained {
    pub count: usize,
    pub items: [SubmittedTx; 16],
    pub ids: [u64; 16],
}

#[derive(Clone, Copy)]
pub struct Queue {
    pub count: usize,
    pub items: [PendingDelivery; 16],
}

// Numbers, with the count 2: next token, next submission id.
pub fn read_numbers(s: &[u8], at: &mut usize) -> Numbers
    ensures { Reads parse_numbers s.now at.old (record { token = result.token.0; id = result.id.0 }) at.new }
{
    let start = *at;
    let k = read_count(s, &mut *at, 2);
    *at = pass(k == 2, start, *at);
    let token = read_number(s, &mut *at);
    let id = read_number(s, at);
    Numbers {
        token: Token(token),
        id: SubmissionId(id),
    }
}

pub fn read_retained(s: &[u8], at: &mut usize, next: Token) -> Retained
    ensures { ReadsRetained next.0 s.now at.old result.count result.items result.ids at.new }
{
    let n = read_count(s, &mut *at, 16) as usize;
    let mut items = [SubmittedTx::zero(); 16];
    let mut ids = [0u64; 16];
    let mut tokens = [0u64; 32];
    let mut m: usize = 0;
    // By its own loop and not `read_list`: what is read is kept in three arrays, of which a turn fills one or two cells more.
    for i in 0..n {
        let x = read_submitted(s, &mut *at, next, &ids[..i], &tokens[..m]);
        items[i] = x;
        ids[i] = x.entry.id.0;
        tokens[m] = x.slots.active_attempt.attempt.token.0;
        m += x.slots.active_attempt.present as usize;
        tokens[m] = x.slots.completed_attempt.attempt.token.0;
        m += x.slots.completed_attempt.present as usize;
    }
    Retained {
        count: n,
        items,
        ids,
    }
}

pub fn read_queue(s: &[u8], at: &mut usize) -> Queue
    ensures { ReadsCells 16 zero_delivery (λ before. parse_delivery) s.now at.old result.count result.items at.new }
{
    let mut items = [PendingDelivery::zero(); 16];
    let count = read_list(s, at, &mut items, |s, at, _| read_delivery(s, at)) as usize;
    Queue { count, items }
}

pub fn read_retirements(s: &[u8], at: &mut usize) -> Ids<64>
    ensures { ReadsCells 64 0 parse_retired s.now at.old result.count result.items at.new }
{
    let mut items = [0u64; 64];
    let count = read_list(
        s,
        at,
        &mut items,
        |s, at, earlier| read_new_id(s, at, earlier).0,
    ) as usize;
    Ids { count, items }
}

// Whether x is above the last.
fn rises(earlier: &[u64], x: u64) -> bool
    ensures { result ≡ above earlier.now x }
{
    // A match: `is_none_or` gets no proof here.
    match earlier.last() {
        None => true,
        Some(y) => *y < x,
    }
}

// A replayed id is above the one before it, and retained.
fn read_replay(s: &[u8], at: &mut usize, retained: &[u64], earlier: &[u64]) -> SubmissionId
    ensures { Reads (parse_replayed retained.now earlier.now) s.now at.old result.0 at.new }
{
    let start = *at;
    let n = read_number(s, &mut *at);
    let up = rises(earlier, n);
    let held = retained.contains(&n);
    *at = pass(up & held, start, *at);
    SubmissionId(n)
}

pub fn read_replays(s: &[u8], at: &mut usize, retained: &[u64]) -> Ids<16>
    ensures { ReadsCells 16 0 (parse_replayed retained.now) s.now at.old result.count result.items at.new }
{
    let mut items = [0u64; 16];
    let count = read_list(s, at, &mut items, |s, at, earlier| {
        read_replay(s, at, retained, earlier).0
    }) as usize;
    Ids { count, items }
}
