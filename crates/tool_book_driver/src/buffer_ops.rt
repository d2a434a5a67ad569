// Calls that write their value into a lent buffer.
use crate::frame::{Step, finish, say_answer};
use codec_answers::part::append_length;
use part_replies::Reply;
use submission::SubmissionBook;
use tool_script::list::{as_slice, read_bytes, read_ids, read_length};

// What a lent buffer holds at first.
const FILL: u8 = 0xa5;

// The refusal, or 0 with the length written; then the lent buffer.
fn finish_written(r: Reply<usize, SubmissionBook>, lent: &[u8], at: usize) -> Step {
    say_answer(&r.answer, |out, at, n| append_length(out, at, *n));
    io::write_all(1, lent);
    finish(r.book, at)
}

// 0f
#[inline(never)]
fn reconciliation_input_coins(s: &[u8], at: usize, b: SubmissionBook) -> Option<Step> {
    let outputs = read_bytes(s, at)?;
    let length = read_length(s, outputs.at)?;
    let mut room = [FILL; 65536];
    let lent = &mut room[..length.value];
    let r = b.reconciliation_input_coins(outputs.value, &mut *lent);
    Some(finish_written(r, &*lent, length.at))
}

// 16
#[inline(never)]
fn absent_outputs_for_ids(s: &[u8], at: usize, b: SubmissionBook) -> Option<Step> {
    let ids = read_ids(s, at)?;
    let absent = read_bytes(s, ids.at)?;
    let length = read_length(s, absent.at)?;
    let mut room = [FILL; 65536];
    let lent = &mut room[..length.value];
    let r = b.absent_outputs_for_ids(as_slice(&ids.value), absent.value, &mut *lent);
    Some(finish_written(r, &*lent, length.at))
}

// 1b
#[inline(never)]
fn write_archive(s: &[u8], at: usize, b: SubmissionBook) -> Option<Step> {
    let length = read_length(s, at)?;
    let mut room = [FILL; 65536];
    let lent = &mut room[..length.value];
    let r = b.write_archive(&mut *lent);
    Some(finish_written(r, &*lent, length.at))
}

// 0f, 16 and 1b. A match on the script's byte: an enum of the calls would be one match more.
#[inline(never)]
pub fn play(op: u8, s: &[u8], at: usize, b: SubmissionBook) -> Option<Step> {
    match op {
        0x0f => reconciliation_input_coins(s, at, b),
        0x16 => absent_outputs_for_ids(s, at, b),
        _ => write_archive(s, at, b),
    }
}
