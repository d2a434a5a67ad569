// What a drain hands out: submissions and failures.
ghost use Rattle.std.specs.Prelude.{List, ◌++◌, ℕ, ◌+◌, ◌*◌, min, take};
ghost use Rattle.codec_forms.specs.Wire.{be, enc_many};
ghost use Rattle.codec_append.specs.Fits.{Fits, FitsWithin};
ghost use Rattle.codec_answers.specs.Forms.{encode_token, encode_drained};
ghost use Rattle.codec_answers.specs.Drain.{encode_failure, encode_submissions, encode_failures, encode_handed_out};

use archive_bundle_size::{size_bundle, size_fee_intent, size_height};
use archive_bundle_write::write::{append_bundle, append_fee_intent, append_height};
use archive_entry_write::append_id;
use book::Token;
use book_answers::{DrainedSubmission, SubmissionDrainFailure};
use codec_append::{append_byte, append_bytes, append_number, append_optional_number};
use part_drain_answers::{Drained, retained_id, stage_of};

// One call, as `append_id` is: each says in its contract which number it writes.
pub fn append_token(out: &mut [u8], at: usize, t: Option<Token>) -> usize
    ensures { Fits (encode_token t) at out.old out.new result }
{
    append_optional_number(out, at, t.map(|x| x.0))
}

pub fn append_drained(out: &mut [u8], at: usize, d: &DrainedSubmission) -> usize
    ensures { FitsWithin 1149 (encode_drained d.now) at out.old out.new result }
{
    // at most 1073, 9 and 41: the parts that decide how long the whole can be
    size_bundle(d.bundle);
    size_height(d.expiry);
    size_fee_intent(d.fee_intent);
    let id_end = append_number(&mut *out, at, d.id.0);
    let token_end = append_number(&mut *out, id_end, d.attempt_token.0);
    let predecessor_end = append_token(&mut *out, token_end, d.predecessor_attempt_token);
    let relationship_end = append_byte(&mut *out, predecessor_end, d.relationship as u8);
    let bundle_end = append_bundle(&mut *out, relationship_end, d.bundle);
    let expiry_end = append_height(&mut *out, bundle_end, d.expiry);
    append_fee_intent(out, expiry_end, d.fee_intent)
}

// The count, and the first n of 16 parts. The caller names the function that appends one part; the ghost value is the form of a part,
// and how long it is at most.
// Apart from `append_list`, whose contract has no bound on the length. The clause with `IsAlwaysCallable` is std's form for a function that is lent.
fn append_first<T, F: Fn(&mut [u8], usize, &T) -> usize>(
    out: &mut [u8],
    at: usize,
    parts: &[T; 16],
    n: usize,
    append: F,
) -> usize
    ghost form: { (T → List ℕ) × ℕ }
    requires callable { F.IsAlwaysCallable append }
    requires appends { (d : _) (e : _) (x : _) (r : _) (d' : _) → F.post append d e x r d' → FitsWithin form.1 (form.0 x.now) e d.now d'.now r }
    ensures { FitsWithin (1 + 16 * form.1) (be 1 (min n 16) ++ enc_many form.0 (take n parts.now)) at out.old out.new result }
{
    let k = n.min(16);
    let first = &parts[..k];
    let mut e = append_byte(&mut *out, at, k as u8);
    for x in first {
        e = append(&mut *out, e, x);
    }
    e
}

// One call, as `append_failures` is: each names the writer of its parts, and its contract their form.
pub fn append_submissions(out: &mut [u8], at: usize, a: &[DrainedSubmission; 16], n: usize) -> usize
    ensures { FitsWithin 18385 (encode_submissions n a.now) at out.old out.new result }
{
    append_first(out, at, a, n, append_drained)
}

// A failure of a drain. The stage is 0 Fingerprint, 1 RetainedState, 2 ExpectedOutputs, 3 SubmissionId.
fn append_drain_failure(out: &mut [u8], at: usize, f: &SubmissionDrainFailure) -> usize
    ensures { FitsWithin 59 (encode_failure f.now) at out.old out.new result }
{
    let stage = stage_of(f.cause);
    let retained = retained_id(*f);
    let index_end = append_number(&mut *out, at, f.candidate_index as u64);
    let retained_end = append_id(&mut *out, index_end, retained);
    let candidate_end = append_id(&mut *out, retained_end, Some(f.candidate_id));
    let fingerprint_end = append_bytes(&mut *out, candidate_end, &f.intent_fingerprint);
    append_byte(out, fingerprint_end, stage as u8)
}

pub fn append_failures(
    out: &mut [u8],
    at: usize,
    a: &[SubmissionDrainFailure; 16],
    n: usize,
) -> usize
    ensures { FitsWithin 945 (encode_failures n a.now) at out.old out.new result }
{
    append_first(out, at, a, n, append_drain_failure)
}

// What a drain hands out: its submissions, then its failures.
pub fn append_handed_out(out: &mut [u8], at: usize, d: &Drained) -> usize
    ensures { FitsWithin 19330 (encode_handed_out d.now) at out.old out.new result }
{
    let e = append_submissions(&mut *out, at, &d.submissions, d.submission_count);
    append_failures(out, e, &d.failures, d.failure_count)
}
