// Calls that answer one value of their own: what a drain hands out, a finalised submission, a fee intent, a flag, a height, an attempt.
use crate::frame::{Step, finish_refused, finish_reply};
use book::refusal::Refusal;
use book::{Height, Token};
use codec_answers::drained::append_handed_out;
use codec_answers::part::append_flag;
use codec_answers::value::{
    append_attempt, append_optional_fee_intent, append_optional_finalized, append_rollback_height,
};
use submission::SubmissionBook;
use tool_script::cells::read_bundle;
use tool_script::kind::{read_number, read_source};

// 06
#[inline(never)]
fn finalize_attempt(s: &[u8], at: usize, b: SubmissionBook) -> Option<Step> {
    let token = read_number(s, at)?;
    let source = read_source(s, token.at)?;
    let joined = read_bundle(s, source.at)?;
    Some(match (source.value, joined.value) {
        (Some(from), Some(bundle)) => {
            let r = b.finalize_attempt(Token(token.value), from, bundle);
            finish_reply(r, append_optional_finalized, joined.at)
        }
        _ => finish_refused(Refusal::BadValue, b, joined.at),
    })
}

// This and the two below are one call of the interface each: each has a type of its own for its argument and its answer.
// 07
#[inline(never)]
fn fee_intent_for_attempt(s: &[u8], at: usize, b: SubmissionBook) -> Option<Step> {
    let token = read_number(s, at)?;
    let r = b.fee_intent_for_attempt(Token(token.value));
    Some(finish_reply(r, append_optional_fee_intent, token.at))
}

// 11
#[inline(never)]
fn begin_replay(s: &[u8], at: usize, b: SubmissionBook) -> Option<Step> {
    let height = read_number(s, at)?;
    let r = b.begin_replay(Height(height.value));
    Some(finish_reply(r, append_flag, height.at))
}

// 1a
#[inline(never)]
fn attempt(s: &[u8], at: usize, b: SubmissionBook) -> Option<Step> {
    let token = read_number(s, at)?;
    let r = b.attempt(Token(token.value));
    Some(finish_reply(r, |out, at, a| append_attempt(out, at, *a), token.at))
}

// 05, 06, 07, 11, 13 and 1a. A match on the script's byte: an enum of the calls would be one match more.
#[inline(never)]
pub fn play(op: u8, s: &[u8], at: usize, b: SubmissionBook) -> Option<Step> {
    match op {
        0x05 => Some(finish_reply(b.drain(), append_handed_out, at)),
        0x06 => finalize_attempt(s, at, b),
        0x07 => fee_intent_for_attempt(s, at, b),
        0x11 => begin_replay(s, at, b),
        0x13 => Some(finish_reply(b.replay_rollback_height(), append_rollback_height, at)),
        _ => attempt(s, at, b),
    }
}
