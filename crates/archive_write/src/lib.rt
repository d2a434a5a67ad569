// The sections of an archive. Each section writer gets the rest of the buffer from its start, and returns how many bytes it wrote.
#![tactic(auto)]

ghost use Rattle.codec_forms.specs.Wire.{be, enc_list};
ghost use Rattle.codec_append.specs.Fits.{Fits};
ghost use Rattle.archive_form.specs.Encode.{encode_book};
ghost use Rattle.archive_write.specs.Sections.{front_of, back_of, numbers_form};

use archive_bundle_write::each::append_list;
use archive_bundle_write::write::append_height;
use archive_entry_write::{append_delivery, append_submitted};
use book::{BookData, SubmissionId, Token};
use codec_append::{append_byte, append_number};

// Numbers (count 2): next token, next submission id.
fn write_numbers(out: &mut [u8], token: Token, id: SubmissionId) -> usize
    ensures { Fits (numbers_form token id) 0 out.old out.new result }
{
    let count_end = append_byte(&mut *out, 0, 2);
    let token_end = append_number(&mut *out, count_end, token.0);
    append_number(out, token_end, id.0)
}

// Retirements, or replayed ids.
fn write_ids(out: &mut [u8], ids: &[u64]) -> usize
    ensures { Fits (enc_list (be 8) ids.now) 0 out.old out.new result }
{
    append_list(out, 0, ids, |out, at, id| append_number(out, at, *id))
}

// Numbers, retained submissions and queue.
fn write_front(out: &mut [u8], b: BookData) -> usize
    ensures { Fits (front_of b) 0 out.old out.new result }
{
    // Arrays of their own: a slice lent from a book by value keeps a copy of the whole book on the stack.
    let submitted = b.submitted;
    let pending = b.pending_deliveries;
    let n = b.submitted_count.min(16);
    let q = b.pending_count.min(16);
    let at = write_numbers(
        &mut *out,
        b.next_delivery_attempt_token,
        b.next_submission_id,
    );
    let retained = append_list(&mut out[at..], 0, &submitted[..n], append_submitted);
    let next = at + retained;
    let queue = append_list(&mut out[next..], 0, &pending[..q], append_delivery);
    next + queue
}

// Retirements, rollback height and replayed ids.
fn write_back(out: &mut [u8], b: BookData) -> usize
    ensures { Fits (back_of b) 0 out.old out.new result }
{
    let retired = b.retired_submission_ids;
    let epoch = b.replay_epoch;
    let replayed = epoch.replayed_submission_ids;
    let r = retired.count.min(64);
    let p = replayed.count.min(16);
    let at = write_ids(&mut *out, &retired.items[..r]);
    let rollback = append_height(&mut out[at..], 0, epoch.rollback_height);
    let next = at + rollback;
    let last = write_ids(&mut out[next..], &replayed.items[..p]);
    next + last
}

// The whole archive.
pub fn write_book(out: &mut [u8], b: BookData) -> usize
    ensures { Fits (encode_book b) 0 out.old out.new result }
{
    let at = write_front(&mut *out, b);
    let rest = write_back(&mut out[at..], b);
    at + rest
}
