// The values that calls answer.
ghost use Rattle.std.specs.Prelude.{◌≡◌};
ghost use Rattle.codec_forms.specs.Wire.{be};
ghost use Rattle.archive_bundle_form.specs.Forms.{encode_height, encode_fee_intent};
ghost use Rattle.archive_form.specs.Encode.{encode_slot};
ghost use Rattle.codec_append.specs.Fits.{FitsWithin};
ghost use Rattle.codec_answers.specs.Forms.{answer_number, status_number, enc_option, encode_ids, encode_final, encode_look, encode_summary};

use crate::drained::append_token;
use crate::part::{append_flag, append_option};
use archive_bundle_size::{size_bundle, size_fee_intent};
use archive_bundle_write::each::append_each;
use archive_bundle_write::write::{append_bundle, append_fee_intent, append_height};
use archive_entry_write::append_slot;
use book::refusal::Refusal;
use book::{Height, Ids, OptionalAttempt, SubmissionFeeIntent};
use book_answers::{BookSummary, FinalizedSubmission, SubmissionAttemptStatus, SubmissionLook};
use codec_append::{append_byte, append_bytes, append_number};

// 0, or the refusal's number.
pub fn answer_number<T>(answer: &Result<T, Refusal>) -> u8
    ensures { result ≡ answer_number answer.now }
{
    match answer {
        Ok(_) => 0,
        Err(r) => *r as u8,
    }
}

// Functions of one call, here and below, name the form of one kind of answer in their contract.
pub fn append_status(out: &mut [u8], at: usize, s: &SubmissionAttemptStatus) -> usize
    ensures { FitsWithin 1 (be 1 (status_number s.now)) at out.old out.new result }
{
    append_byte(out, at, *s as u8)
}

pub fn append_ids(out: &mut [u8], at: usize, ids: &Ids<64>) -> usize
    ensures { FitsWithin 513 (encode_ids ids.now) at out.old out.new result }
{
    let k = ids.count.min(64);
    let e = append_byte(&mut *out, at, k as u8);
    append_each(
        out,
        e,
        &ids.items[..k],
        |out, at, id| append_number(out, at, *id),
    )
}

pub fn append_rollback_height(out: &mut [u8], at: usize, h: &Option<Height>) -> usize
    ensures { FitsWithin 9 (encode_height h.now) at out.old out.new result }
{
    append_height(out, at, *h)
}

pub fn append_attempt(out: &mut [u8], at: usize, a: OptionalAttempt) -> usize
    ensures { FitsWithin 75 (encode_slot a) at out.old out.new result }
{
    append_slot(out, at, a)
}

fn append_intent(out: &mut [u8], at: usize, f: &SubmissionFeeIntent) -> usize
    ensures { FitsWithin 41 (encode_fee_intent f.now) at out.old out.new result }
{
    // at most 41
    size_fee_intent(*f);
    append_fee_intent(out, at, *f)
}

pub fn append_optional_fee_intent(
    out: &mut [u8],
    at: usize,
    f: &Option<SubmissionFeeIntent>,
) -> usize
    ensures { FitsWithin 42 (enc_option encode_fee_intent f.now) at out.old out.new result }
{
    append_option(out, at, f, append_intent)
}

fn append_finalized(out: &mut [u8], at: usize, f: &FinalizedSubmission) -> usize
    ensures { FitsWithin 1116 (encode_final f.now) at out.old out.new result }
{
    // at most 1073: the part that decides how long the whole can be
    size_bundle(f.bundle);
    let bundle_end = append_bundle(&mut *out, at, f.bundle);
    let fee_end = append_number(&mut *out, bundle_end, f.applied_fee);
    let warning_end = append_flag(&mut *out, fee_end, &f.warning);
    let disposition_end = append_byte(&mut *out, warning_end, f.disposition as u8);
    let fingerprint_end = append_bytes(&mut *out, disposition_end, &f.variant_fingerprint);
    append_flag(out, fingerprint_end, &f.should_broadcast)
}

pub fn append_optional_finalized(
    out: &mut [u8],
    at: usize,
    f: &Option<FinalizedSubmission>,
) -> usize
    ensures { FitsWithin 1117 (enc_option encode_final f.now) at out.old out.new result }
{
    append_option(out, at, f, append_finalized)
}

fn append_look(out: &mut [u8], at: usize, l: &SubmissionLook) -> usize
    ensures { FitsWithin 38 (encode_look l.now) at out.old out.new result }
{
    let chain_end = append_byte(&mut *out, at, l.chain_terminality as u8);
    let acknowledged_end = append_flag(&mut *out, chain_end, &l.acknowledged);
    let mark_end = append_byte(&mut *out, acknowledged_end, l.fee_resolution as u8);
    let fee_end = append_number(&mut *out, mark_end, l.applied_fee);
    let expiry_end = append_height(&mut *out, fee_end, l.expiry);
    let active_end = append_token(&mut *out, expiry_end, l.active_attempt_token);
    append_token(out, active_end, l.completed_attempt_token)
}

pub fn append_optional_look(out: &mut [u8], at: usize, l: &Option<SubmissionLook>) -> usize
    ensures { FitsWithin 39 (enc_option encode_look l.now) at out.old out.new result }
{
    append_option(out, at, l, append_look)
}

pub fn append_summary(out: &mut [u8], at: usize, s: &BookSummary) -> usize
    ensures { FitsWithin 57 (encode_summary s.now) at out.old out.new result }
{
    let token_end = append_number(&mut *out, at, s.next_delivery_attempt_token.0);
    let id_end = append_number(&mut *out, token_end, s.next_submission_id.0);
    let retained_end = append_number(&mut *out, id_end, s.submitted_count as u64);
    let queued_end = append_number(&mut *out, retained_end, s.pending_count as u64);
    let retired_end = append_number(&mut *out, queued_end, s.retired_count as u64);
    let replayed_end = append_number(&mut *out, retired_end, s.replayed_count as u64);
    append_height(out, replayed_end, s.rollback_height)
}
