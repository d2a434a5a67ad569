// Why the system refused, on standard error.
use std::io::Write;
use std::{io, str};

// The library writes the system's words and then the number of the error, which is left out here. A message that cannot be written is no error of its own.
pub fn fail(rt: &impl Eprint, what: &str, error: &io::Error) {
    let mut room = [0u8; 512];
    let mut rest: &mut [u8] = &mut room;
    let _ = write!(rest, "{error}");
    let _ = eprintln!(rt; "{what}: {}", words(&room));
}

// What stands in front of the number, or of the zeros of the room.
fn words(text: &[u8]) -> &str {
    let text = str::from_utf8(text).unwrap_or("");
    match text.split_once(" (os error ") {
        Some((words, _)) => words,
        None => text.trim_end_matches('\0'),
    }
}
