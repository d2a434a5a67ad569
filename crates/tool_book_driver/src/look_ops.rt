// The looks: what a retained submission holds, and the book in numbers.
use crate::frame::{Step, finish_reply};
use book::SubmissionId;
use codec_answers::value::{append_optional_look, append_summary};
use submission::SubmissionBook;
use tool_script::kind::read_number;

// 1e: one call of the interface, as each function of a call is.
#[inline(never)]
fn look(s: &[u8], at: usize, b: SubmissionBook) -> Option<Step> {
    let id = read_number(s, at)?;
    let r = b.look(SubmissionId(id.value));
    Some(finish_reply(r, append_optional_look, id.at))
}

// 1e and 1f. A match on the script's byte: an enum of the calls would be one match more.
#[inline(never)]
pub fn play(op: u8, s: &[u8], at: usize, b: SubmissionBook) -> Option<Step> {
    match op {
        0x1e => look(s, at, b),
        _ => Some(finish_reply(b.summary(), append_summary, at)),
    }
}
