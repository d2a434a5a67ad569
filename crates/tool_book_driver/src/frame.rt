// What every call of a script ends with: its answer, and the digest of the book that it leaves.
use book::refusal::Refusal;
use codec_answers::value::answer_number;
use codec_append::append_byte;
use part_replies::Reply;
use submission::SubmissionBook;

// The longest answer is that of a drain: the 0, and what it hands out.
const LONGEST_ANSWER: usize = 19331;

// The position behind a call, and the book. There is none where the script is cut short or has no call.
#[derive(Clone, Copy)]
pub struct Step {
    pub at: usize,
    pub book: SubmissionBook,
}

pub fn say_byte(n: u8) {
    io::write_all(1, &[n]);
}

// The refusal, or 0 and the value, which the caller's function appends.
pub fn say_answer<T, F: Fn(&mut [u8], usize, &T) -> usize>(answer: &Result<T, Refusal>, append: F)
    requires { F.IsAlwaysCallable append }
{
    match answer {
        Ok(value) => {
            let mut out = [0u8; LONGEST_ANSWER];
            let head = append_byte(&mut out, 0, 0);
            let e = append(&mut out, head, value);
            // What `append` promises of the place that it answers is not known here.
            if let Some(text) = out.get(..e) {
                io::write_all(1, text);
            }
        }
        Err(refusal) => say_byte(*refusal as u8),
    }
}

// The SHA-256 of the book's archive.
fn say_digest(b: SubmissionBook) {
    let mut out = io::large_buffer();
    let Ok(n) = archive_write_checked::write_archive(b.parts, &mut out) else {
        return;
    };
    if let Some(archive) = out.get(..n) {
        io::write_all(1, &base_sha256::sha256(archive));
    }
}

// The end of a call whose answer is written.
pub fn finish(b: SubmissionBook, at: usize) -> Step {
    say_digest(b);
    Step { at, book: b }
}

pub fn finish_reply<T: Copy, F: Fn(&mut [u8], usize, &T) -> usize>(
    r: Reply<T, SubmissionBook>,
    append: F,
    at: usize,
) -> Step
    requires { F.IsAlwaysCallable append }
{
    say_answer(&r.answer, append);
    finish(r.book, at)
}

// A call that answers nothing.
pub fn finish_done(r: Reply<(), SubmissionBook>, at: usize) -> Step {
    say_byte(answer_number(&r.answer));
    finish(r.book, at)
}

// A call whose arguments stand for no value.
pub fn finish_refused(r: Refusal, b: SubmissionBook, at: usize) -> Step {
    say_byte(r as u8);
    finish(b, at)
}
