// A book as text on standard output: the payments on top, then section by section.
#![tactic(auto)]

use book::{BookData, PendingDelivery, ReplayEpoch, SubmittedTx};
use std::io;
use tool_book_summary::queue::is_new;
use tool_book_summary::tally::{payment_of, totals};
use tool_book_text::entry::{
    append_delivery_by_index, append_ids, append_submission_by_index, append_tokens,
};
use tool_bundle_text::words::append_height;
use tool_payments::Payment;
use tool_payments::payments::queued_payment;
use tool_payments::text::{append_payment, append_totals};
use tool_text::append_hex_line;

// A room with the place behind what is written, as `codec_append` has them. The clause is std's form for a function that is lent.
// Prints what `append` writes from the start of the room on. Each caller lends a room for its texts: the largest for all would stand
// on the stack for each.
fn show_text<F: FnOnce(&mut [u8]) -> usize>(
    rt: &impl Print,
    room: &mut [u8],
    append: F,
) -> io::Result<()>
    requires { F.IsAlwaysCallable append }
{
    let end = append(&mut *room);
    rt.write_all(&room[..end.min(room.len())])
}

// Submissions and queue as two slices, here and below: functions that hand a whole book on are slow to check.
fn show_totals(
    rt: &impl Print,
    submitted: &[SubmittedTx],
    queue: &[PendingDelivery],
) -> io::Result<()> {
    let retained = submitted.len();
    let queued = queue.len();
    // Paper 01: an optional attempt is a mark with the attempt beside it.
    let live = submitted
        .iter()
        .filter(|t| t.slots.active_attempt.present)
        .count();
    let set_aside = submitted
        .iter()
        .filter(|t| t.slots.completed_attempt.present)
        .count();
    println!(rt; "\ntotals")?;
    println!(rt; "  retained submissions: {retained}")?;
    println!(rt; "  live attempts: {live}")?;
    println!(rt; "  set-aside attempts: {set_aside}")?;
    println!(rt; "  queue entries: {queued}")
}

// How many ids there are, and the ids.
fn show_ids(rt: &impl Print, what: &str, ids: &[u64]) -> io::Result<()> {
    let n = ids.len();
    println!(rt; "{what} ids, number: {n}")?;
    show_text(rt, &mut [0; 4096], |out| append_ids(out, 0, b"  ids:", ids))
}

// The rollback height and the ids replayed since.
fn show_replay(rt: &impl Print, epoch: &ReplayEpoch) -> io::Result<()> {
    let height = epoch.rollback_height;
    show_text(
        rt,
        &mut [0; 256],
        |out| append_height(out, 0, b"\nrollback height: ", height),
    )?;
    let ids = &epoch.replayed_submission_ids;
    show_ids(rt, "replayed", &ids.items[..ids.count.min(16)])
}

// The tokens that slots hold; what became of the others a book does not say.
fn show_fates(rt: &impl Print, submitted: &[SubmittedTx], next: u64) -> io::Result<()> {
    println!(rt; "\ntokens and their fates")?;
    let mut room = [0; 256];
    for t in submitted {
        show_text(rt, &mut room, |out| append_tokens(out, 0, t))?;
    }
    println!(rt;
        "  all other tokens issued below the next token are gone (displaced or struck out; a book does not keep the two apart), next token: {next}"
    )
}

fn show_payment(rt: &impl Print, p: Payment) -> io::Result<()> {
    show_text(rt, &mut [0; 256], |out| append_payment(out, 0, p))
}

// The payments, one to a line, and their totals. A book without submissions and queue entries has no payment.
fn show_payments(
    rt: &impl Print,
    submitted: &[SubmittedTx],
    queue: &[PendingDelivery],
) -> io::Result<()> {
    println!(rt; "\npayments")?;
    for t in submitted {
        show_payment(rt, payment_of(t, queue))?;
    }
    for (i, d) in queue.iter().enumerate() {
        if is_new(d, submitted, &queue[i + 1..]) {
            show_payment(rt, queued_payment(d))?;
        }
    }
    if submitted.is_empty() && queue.is_empty() {
        println!(rt; "  none")?;
    }
    println!(rt; "\npayments in all")?;
    let totals = totals(submitted, queue);
    show_text(rt, &mut [0; 512], |out| append_totals(out, 0, totals))
}

fn show_digest(rt: &impl Print, digest: &[u8; 32]) -> io::Result<()> {
    let label = b"SHA-256 of these bytes, to be kept beside the archive: ";
    show_text(
        rt,
        &mut [0; 256],
        |out| append_hex_line(out, 0, label, digest),
    )
}

// The retained submissions and the queue, entry by entry.
fn show_entries(
    rt: &impl Print,
    submitted: &[SubmittedTx],
    queue: &[PendingDelivery],
) -> io::Result<()> {
    // The longest text is below 12,500 bytes.
    let mut room = [0; 16384];
    for (i, t) in submitted.iter().enumerate() {
        println!(rt; "")?;
        show_text(
            rt,
            &mut room,
            |out| append_submission_by_index(out, 0, i, submitted.len(), t),
        )?;
    }
    for (i, d) in queue.iter().enumerate() {
        println!(rt; "")?;
        show_text(
            rt,
            &mut room,
            |out| append_delivery_by_index(out, 0, i, queue.len(), d),
        )?;
    }
    Ok(())
}

// The book that an archive of so many bytes holds, and the digest of those bytes.
pub fn show_book(rt: &impl Print, len: usize, digest: &[u8; 32], b: &BookData) -> io::Result<()> {
    let submitted = &b.submitted[..b.submitted_count.min(16)];
    let queue = &b.pending_deliveries[..b.pending_count.min(16)];
    let retired = &b.retired_submission_ids;
    let next_token = b.next_delivery_attempt_token.0;
    let next_id = b.next_submission_id.0;
    println!(rt; "archive of a submission book, bytes: {len}")?;
    show_digest(rt, digest)?;
    show_payments(rt, submitted, queue)?;
    println!(rt; "\nnext attempt token: {next_token}")?;
    println!(rt; "next submission id: {next_id}")?;
    show_totals(rt, submitted, queue)?;
    show_entries(rt, submitted, queue)?;
    show_ids(rt, "\nretired", &retired.items[..retired.count.min(64)])?;
    show_replay(rt, &b.replay_epoch)?;
    show_fates(rt, submitted, next_token)
}
