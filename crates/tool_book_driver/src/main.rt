// Plays a call script (docs/DRIVER.md) from standard input on one book, and writes what each call answered.
#![tactic(auto)]

mod archive_ops;
mod buffer_ops;
mod done_ops;
mod frame;
mod id_ops;
mod input;
mod look_ops;
mod status_ops;
mod value_ops;

use crate::frame::{Step, say_byte};
use book::{SubmissionId, Token};
use submission::SubmissionBook;
use tool_script::kind::{read_byte, read_number};

// The bytes in hand behind a call, and the book.
#[derive(Clone, Copy)]
struct Played {
    at: usize,
    end: usize,
    book: SubmissionBook,
}

// Script, place and book go through every call, here and in the modules: a struct of them would be taken apart at each.
// The call at a position of the script: each module has the calls of one kind of answer. A match on the script's byte: an enum of the
// calls would be one match more.
fn play_call(s: &[u8], at: usize, b: SubmissionBook) -> Option<Step> {
    let op = read_byte(s, at)?;
    let code = op.value;
    let from = op.at;
    match code {
        0x01 | 0x02 | 0x03 | 0x04 | 0x0d => done_ops::play(code, s, from, b),
        0x12 | 0x14 | 0x17 | 0x18 | 0x19 => done_ops::play(code, s, from, b),
        0x08 | 0x09 | 0x0a | 0x0b => status_ops::play(code, s, from, b),
        0x05 | 0x06 | 0x07 | 0x11 | 0x13 | 0x1a => value_ops::play(code, s, from, b),
        0x0c | 0x0e | 0x10 | 0x15 => id_ops::play(code, s, from, b),
        0x0f | 0x16 | 0x1b => buffer_ops::play(code, s, from, b),
        0x1c | 0x1d => archive_ops::play(code, s, from, b),
        0x1e | 0x1f => look_ops::play(code, s, from, b),
        _ => None,
    }
}

// Plays the next call. None where the script is over, or broken, which is written.
fn play_turn(room: &mut [u8], at: usize, end: usize, b: SubmissionBook) -> Option<Played> {
    let hand = input::refill(&mut *room, at, end);
    if hand.end <= hand.at {
        return None;
    }
    let script = room.get(..hand.end).unwrap_or(&[]);
    match play_call(script, hand.at, b) {
        Some(step) => Some(Played {
            at: step.at,
            end: hand.end,
            book: step.book,
        }),
        None => {
            say_byte(255);
            None
        }
    }
}

// Plays the script that standard input holds; the room is for its bytes.
fn play_script(room: &mut [u8]) {
    let mut end = io::read_full(0, &mut *room);
    let mut at = 16;
    let (Some(token), Some(id)) = (read_number(&room[..end], 0), read_number(&room[..end], 8))
    else {
        say_byte(255);
        return;
    };
    let mut book = SubmissionBook::open(Token(token.value), SubmissionId(id.value));
    // No script has as many calls, so that the loop ends where the script does.
    for _call in 0..u64::MAX {
        let Some(played) = play_turn(&mut *room, at, end, book) else {
            return;
        };
        book = played.book;
        at = played.at;
        end = played.end;
    }
}

// No `HostRuntime`: it would go down through every call to where the answer is written.
fn main() {
    let mut room = input::window();
    play_script(&mut room);
}
