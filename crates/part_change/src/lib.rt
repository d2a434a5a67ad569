// Changes of a book by value. The book is held in one local and its cells are changed in place.
#![tactic(auto)]

ghost use Rattle.std.specs.Prelude.{◌≡◌, true, ◌+◌, ◌≤◌, ◌<◌, length, take};
ghost use Rattle.book.specs.Zero.{zero_delivery};
ghost use Rattle.book.specs.Model.{view, back};
ghost use Rattle.book.specs.Sound.{id_of, sound_delivery};
ghost use Rattle.book.specs.SoundLaws.{Counted};
ghost use Rattle.rules.specs.Keyed.{without};
ghost use Rattle.rules.specs.Rule.{enqueue, unqueue, unqueue_all, unretire_all};
ghost use Rattle.rules.specs.Steps.{with_submitted, note_book, remove_book};
ghost use Rattle.rules.specs.Steps.Notes.{unqueued};
ghost use Rattle.part_replay.specs.Epoch.{replayed_of};
ghost use Rattle.part_lookup.specs.Normal.{Normal};
ghost use Rattle.part_change.specs.Changes.{stored_at, with_epoch_of, retiring};

use book::refusal::Refusal;
use book::{BookData, PendingDelivery, ReplayEpoch, SubmissionId, SubmittedTx};
use part_ids::{empty, push_new};
use part_lookup::is_id;

// A count beside an array, as in the book: the library has no heap.
// Up to 16 queue entries.
#[derive(Clone, Copy)]
struct Deliveries {
    count: usize,
    items: [PendingDelivery; 16],
}

// ---- submissions
// `Normal b`, here and below: between two changes of a call a book is normal but not known to be sound, so no type of a book says it.
// A place is one of this book only: a struct of both would lend or copy the book.
pub fn store_submitted(b: BookData, k: usize, t: SubmittedTx) -> BookData
    requires { Normal b × (k < length (view b).submitted) }
    ensures { result ≡ back (stored_at k t (view b)) }
{
    let mut out = b;
    out.submitted[k] = t;
    out
}

// By index, here and in `keep_others`: a turn reads one cell of an array and writes others of the same one. Two functions, since one over both
// would be told the zero and the test of a cell, and lent a field, and be no plainer.
// The submission of the id goes. Those before it stay where they are.
fn drop_submitted(b: BookData, id: SubmissionId) -> BookData
    requires { Normal b }
    ensures { result ≡ back (with_submitted (without id_of id.0 (view b).submitted) (view b)) }
{
    let n = b.submitted_count;
    let z = SubmittedTx::zero();
    let mut out = b;
    let mut w: usize = 0;
    for i in 0..n {
        let t = out.submitted[i];
        if t.entry.id == id {
            out.submitted[i] = z;
            continue;
        }
        if w == i {
            w += 1;
            continue;
        }
        out.submitted[i] = z;
        out.submitted[w] = t;
        w += 1;
    }
    out.submitted_count = w;
    out
}

// The submission of the id goes, with its queue entries and its replay mark.
pub fn remove_submitted(b: BookData, id: SubmissionId) -> BookData
    requires { Normal b }
    ensures { result ≡ back (remove_book id.0 (view b)) }
{
    let kept = drop_submitted(b, id);
    let mut out = unqueue(kept, id);
    let epoch = out.replay_epoch;
    let next = part_replay::remove(epoch, id);
    out.replay_epoch = next;
    out
}

// ---- queue
pub fn push_pending(b: BookData, d: PendingDelivery) -> BookData
    requires { Normal b × (length (view b).pending < 16) × (sound_delivery d ≡ true) }
    ensures { result ≡ back (note_book (enqueue d) (view b)) }
{
    let n = b.pending_count;
    let mut out = b;
    out.pending_deliveries[n] = d;
    out.pending_count = n + 1;
    out
}

pub fn clear_pending(b: BookData) -> BookData
    requires { Normal b }
    ensures { result ≡ back (note_book unqueue_all (view b)) }
{
    let z = PendingDelivery::zero();
    let none = [z; 16];
    let mut out = b;
    out.pending_deliveries = none;
    out.pending_count = 0;
    out
}

// The entries of other ids, in front. Those before the first that goes stay where they are: a cell is 1 KB.
fn keep_others(a: [PendingDelivery; 16], n: usize, id: SubmissionId) -> Deliveries
    requires { (n ≤ 16) × Counted 16 zero_delivery n a (take n a) }
    ensures { Counted 16 zero_delivery result.count result.items (unqueued id.0 (take n a)) }
{
    let z = PendingDelivery::zero();
    let mut out = a;
    let mut w: usize = 0;
    for i in 0..n {
        let d = out[i];
        if is_id(d.intent.id, id) {
            out[i] = z;
            continue;
        }
        if w == i {
            w += 1;
            continue;
        }
        out[i] = z;
        out[w] = d;
        w += 1;
    }
    Deliveries {
        count: w,
        items: out,
    }
}

// The queue entries of the id go.
pub fn unqueue(b: BookData, id: SubmissionId) -> BookData
    requires { Normal b }
    ensures { result ≡ back (note_book (unqueue id.0) (view b)) }
{
    let cells = b.pending_deliveries;
    let kept = keep_others(cells, b.pending_count, id);
    let items = kept.items;
    let mut out = b;
    out.pending_deliveries = items;
    out.pending_count = kept.count;
    out
}

// ---- retirements and replay epoch
// `emit_retirement`; full where the retirement would be a 65th.
pub fn retire(b: BookData, id: SubmissionId) -> Result<BookData, Refusal>
    requires { Normal b }
    ensures { result ≡ retiring id.0 (view b) }
{
    let mut out = b;
    push_new(&mut out.retired_submission_ids, id)?;
    Ok(out)
}

pub fn clear_retired(b: BookData) -> BookData
    requires { Normal b }
    ensures { result ≡ back (note_book unretire_all (view b)) }
{
    let mut out = b;
    out.retired_submission_ids = empty();
    out
}

pub fn set_epoch(b: BookData, e: ReplayEpoch) -> BookData
    requires { Normal b × Rattle.part_replay.specs.Epoch.Normal e }
    ensures { result ≡ back (with_epoch_of e.rollback_height (replayed_of e) (view b)) }
{
    let mut out = b;
    out.replay_epoch = e;
    out
}
