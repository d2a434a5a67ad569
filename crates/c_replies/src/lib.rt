// Replies put into lent bytes, one function for each kind of value: its bytes are in the form of docs/DRIVER.md, in an array that is enough for
// the longest.
#![tactic(auto)]

ghost use Rattle.codec_forms.specs.Wire.{be};
ghost use Rattle.archive_bundle_form.specs.Forms.{encode_height, encode_fee_intent};
ghost use Rattle.archive_form.specs.Encode.{encode_slot};
ghost use Rattle.codec_answers.specs.Forms.{flag_number, status_number, enc_option, encode_ids, encode_final, encode_look, encode_summary};
ghost use Rattle.c_answer.specs.Answer.{GivesAnswer};
ghost use Rattle.c_boundary.specs.Forms.{DrainGiven};
ghost use Rattle.c_boundary.specs.Settle.{Gives, coded, finish};
ghost use Rattle.c_boundary.specs.Looks.{told_by};

use book::refusal::Refusal;
use book::{BookData, Height, Ids, OptionalAttempt, SubmissionFeeIntent};
use book_answers::{BookSummary, FinalizedSubmission, SubmissionAttemptStatus, SubmissionLook};
use c_write::{settle_value, tell_value};
use codec_answers::drained::append_handed_out;
use codec_answers::part::append_flag;
use codec_answers::value::{
    append_attempt, append_ids, append_optional_fee_intent, append_optional_finalized,
    append_optional_look, append_rollback_height, append_status, append_summary,
};
use part_drain_answers::Drained;
use part_replies::Reply;

// Each is one call of `settle_value` or `tell_value`, told the form and the room of a kind of value; what it answers is the exported function's number.
pub fn settle_flag(r: Reply<bool, BookData>, book: &mut [u8], answer: &mut [u8]) -> u8
    ensures { Gives (finish (coded (λ t. be 1 (flag_number t)) r.answer) r.book book.old answer.old) result book.new answer.new }
{
    settle_value(r, &mut [0; 1], append_flag, book, answer)
}

pub fn settle_status(
    r: Reply<SubmissionAttemptStatus, BookData>,
    book: &mut [u8],
    answer: &mut [u8],
) -> u8
    ensures { Gives (finish (coded (λ s. be 1 (status_number s)) r.answer) r.book book.old answer.old) result book.new answer.new }
{
    settle_value(r, &mut [0; 1], append_status, book, answer)
}

pub fn settle_ids(r: Reply<Ids<64>, BookData>, book: &mut [u8], answer: &mut [u8]) -> u8
    ensures { Gives (finish (coded encode_ids r.answer) r.book book.old answer.old) result book.new answer.new }
{
    settle_value(r, &mut [0; 513], append_ids, book, answer)
}

pub fn settle_final(
    r: Reply<Option<FinalizedSubmission>, BookData>,
    book: &mut [u8],
    answer: &mut [u8],
) -> u8
    ensures { Gives (finish (coded (enc_option encode_final) r.answer) r.book book.old answer.old) result book.new answer.new }
{
    settle_value(r, &mut [0; 1117], append_optional_finalized, book, answer)
}

// 19330 bytes are always enough: 1 + 16 * 1149 for the submissions, 1 + 16 * 59 for the failures.
pub fn settle_drain(r: Reply<Drained, BookData>, book: &mut [u8], answer: &mut [u8]) -> u8
    ensures { DrainGiven r book.old answer.old result book.new answer.new }
{
    settle_value(r, &mut [0; 19330], append_handed_out, book, answer)
}

// ---- calls that only look
pub fn tell_status(said: &Result<SubmissionAttemptStatus, Refusal>, answer: &mut [u8]) -> u8
    ensures { GivesAnswer (told_by (coded (λ s. be 1 (status_number s)) said.now) answer.old) result answer.new }
{
    tell_value(said, &mut [0; 1], append_status, answer)
}

pub fn tell_height(said: &Result<Option<Height>, Refusal>, answer: &mut [u8]) -> u8
    ensures { GivesAnswer (told_by (coded encode_height said.now) answer.old) result answer.new }
{
    tell_value(said, &mut [0; 9], append_rollback_height, answer)
}

pub fn tell_ids(said: &Result<Ids<64>, Refusal>, answer: &mut [u8]) -> u8
    ensures { GivesAnswer (told_by (coded encode_ids said.now) answer.old) result answer.new }
{
    tell_value(said, &mut [0; 513], append_ids, answer)
}

pub fn tell_look(said: &Result<Option<SubmissionLook>, Refusal>, answer: &mut [u8]) -> u8
    ensures { GivesAnswer (told_by (coded (enc_option encode_look) said.now) answer.old) result answer.new }
{
    tell_value(said, &mut [0; 39], append_optional_look, answer)
}

pub fn tell_summary(said: &Result<BookSummary, Refusal>, answer: &mut [u8]) -> u8
    ensures { GivesAnswer (told_by (coded encode_summary said.now) answer.old) result answer.new }
{
    tell_value(said, &mut [0; 57], append_summary, answer)
}

pub fn tell_attempt(said: &Result<OptionalAttempt, Refusal>, answer: &mut [u8]) -> u8
    ensures { GivesAnswer (told_by (coded encode_slot said.now) answer.old) result answer.new }
{
    tell_value(
        said,
        &mut [0; 75],
        |out, at, a| append_attempt(out, at, *a),
        answer,
    )
}

pub fn tell_fee_intent(said: &Result<Option<SubmissionFeeIntent>, Refusal>, answer: &mut [u8]) -> u8
    ensures { GivesAnswer (told_by (coded (enc_option encode_fee_intent) said.now) answer.old) result answer.new }
{
    tell_value(said, &mut [0; 42], append_optional_fee_intent, answer)
}
