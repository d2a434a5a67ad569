// Reading an archive, and whether the book is sound.
use crate::frame::{Step, finish, finish_done, finish_reply, say_byte};
use archive_read::read_archive;
use book::BookData;
use book::refusal::Refusal;
use book_sound::is_sound;
use codec_answers::part::append_flag;
use part_replies::Reply;
use submission::SubmissionBook;
use tool_script::list::read_bytes;

fn accept(parts: BookData, at: usize) -> Step {
    let book = SubmissionBook { parts };
    let answer = Ok(());
    finish_done(Reply { answer, book }, at)
}

// A refusal, with its place.
fn say_place(place: usize) {
    say_byte(Refusal::NoArchive as u8);
    io::write_all(1, &(place as u64).to_be_bytes());
}

// 1c: an accepted archive becomes the book. `ReadArchive` marks with `ok` whether there is one: a Result of a book costs a copy.
#[inline(never)]
fn read_call(s: &[u8], at: usize, b: SubmissionBook) -> Option<Step> {
    let archive = read_bytes(s, at)?;
    let r = read_archive(archive.value);
    if r.ok {
        return Some(accept(r.book, archive.at));
    }
    say_place(r.place);
    Some(finish(b, archive.at))
}

// 1d
#[inline(never)]
fn sound_call(at: usize, book: SubmissionBook) -> Step {
    let answer = Ok(is_sound(&book.parts));
    finish_reply(Reply { answer, book }, append_flag, at)
}

// 1c and 1d. A match on the script's byte: an enum of the calls would be one match more.
#[inline(never)]
pub fn play(op: u8, s: &[u8], at: usize, b: SubmissionBook) -> Option<Step> {
    match op {
        0x1c => read_call(s, at, b),
        _ => Some(sound_call(at, b)),
    }
}
