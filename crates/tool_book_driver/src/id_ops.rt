// Calls that answer a list of ids.
use crate::frame::{Step, finish_reply};
use codec_answers::value::append_ids;
use submission::SubmissionBook;
use tool_script::list::{as_slice, read_bytes, read_ids};

// 0c
#[inline(never)]
fn retain_submitted(s: &[u8], at: usize, b: SubmissionBook) -> Option<Step> {
    let ids = read_ids(s, at)?;
    let r = b.retain_submitted(as_slice(&ids.value));
    Some(finish_reply(r, append_ids, ids.at))
}

// 15
#[inline(never)]
fn causally_rolled_back_ids(s: &[u8], at: usize, b: SubmissionBook) -> Option<Step> {
    let absent = read_bytes(s, at)?;
    let live = read_bytes(s, absent.at)?;
    let r = b.causally_rolled_back_ids(absent.value, live.value);
    Some(finish_reply(r, append_ids, live.at))
}

// 0c, 0e, 10 and 15. A match on the script's byte: an enum of the calls would be one match more.
#[inline(never)]
pub fn play(op: u8, s: &[u8], at: usize, b: SubmissionBook) -> Option<Step> {
    match op {
        0x0c => retain_submitted(s, at, b),
        0x0e => Some(finish_reply(b.drain_retirements(), append_ids, at)),
        0x10 => Some(finish_reply(b.active_ids(), append_ids, at)),
        _ => causally_rolled_back_ids(s, at, b),
    }
}
