// Reads two 8-byte numbers, the next token and the next submission id, and writes the archive of the book opened with them: 22 bytes.
#![tactic(auto)]

use book::{SubmissionId, Token};
use codec_cursor::read_number;
use std::io::Read;

// A write that fails is dropped, here and in `main`: the status is 0 all the same.
fn refuse(rt: &impl Eprint, text: &str) {
    let _ = rt.eprintln(text);
}

fn main(rt: HostRuntime) {
    let mut numbers = [0u8; 16];
    if rt.reader().read_exact(&mut numbers).is_err() {
        refuse(&rt, "open_archive: two numbers of 8 bytes are wanted");
        return;
    }
    let mut at: usize = 0;
    let token = read_number(&numbers, &mut at);
    let id = read_number(&numbers, &mut at);
    let book = call_open::open(Token(token), SubmissionId(id));
    let mut out = [0u8; 22];
    if archive_write_checked::write_archive(book, &mut out).is_err() {
        refuse(&rt, "open_archive: the archive does not fit");
        return;
    }
    let _ = rt.write_all(&out);
}
