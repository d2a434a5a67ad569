// Calls that answer whether a token's attempt took them.
use crate::frame::{Step, finish_reply};
use book::Token;
use codec_answers::value::append_status;
use submission::SubmissionBook;
use tool_script::kind::read_number;

// 08, 09, 0a and 0b. A match on the script's byte: an enum of the calls would be one match more.
#[inline(never)]
pub fn play(op: u8, s: &[u8], at: usize, b: SubmissionBook) -> Option<Step> {
    let n = read_number(s, at)?;
    let token = Token(n.value);
    let r = match op {
        0x08 => b.acknowledge_attempt(token),
        0x09 => b.stop_attempt(token),
        0x0a => b.abandon_attempt(token),
        _ => b.relinquish_completed_attempt(token),
    };
    Some(finish_reply(r, append_status, n.at))
}
