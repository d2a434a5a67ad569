// A book made in lent bytes, by opening or from an archive; and the archive of a lent book.
#![tactic(auto)]

ghost use Rattle.std.specs.Prelude.{[]};
ghost use Rattle.rules.specs.Opened.{opened};
ghost use Rattle.archive_form.specs.Parse.{read_archive};
ghost use Rattle.c_boundary.specs.Held.{held_in};
ghost use Rattle.c_boundary.specs.Settle.{GivesBook, written};
ghost use Rattle.codec_forms.specs.Puts.{Room, Puts};
ghost use Rattle.c_whole.specs.Whole.{GivesPlace, read_into, GivesLength, write_from};

use archive_size::size_archive;
use archive_walk::walk_archive;
use archive_write::write_book;
use book::refusal::Refusal;
use book::{SubmissionId, Token};
use c_read::held;
use c_write::put_back;
use call_open::open;
use codec_forms::write::put_number;

// An empty book with these two numbers.
// Each function is one of the C interface: its parameters, and a refusal as a number, are what that has.
pub fn open_into(book: &mut [u8], next_token: u64, next_id: u64) -> u8
    ensures { GivesBook (written 0 (opened next_token next_id) [] book.old []) result book.new }
{
    let b = open(Token(next_token), SubmissionId(next_id));
    put_back(0, b, book)
}

// The book of an archive; 13 with the place of its first broken item. An archive is what its book is written as, so that its bytes are
// copied: no book is made. The held book's reader is then called from one place alone, and is compiled into it.
pub fn read_into(book: &mut [u8], archive: &[u8], place: &mut u64) -> u8
    ensures { GivesPlace (read_into (read_archive archive.now) book.old place.old) result book.new place.new }
{
    match walk_archive(archive) {
        Err(at) => {
            *place = at as u64;
            Refusal::NoArchive as u8
        }
        Ok(_) => {
            let n = archive.len();
            if book.len() < 8 + n {
                return Refusal::ShortBuffer as u8;
            }
            let at = put_number(&mut *book, 0, n as u64);
            put_archive(book, at, archive);
            0
        }
    }
}

// By index: with `put_bytes`, a slice's own copy, the library for C would need memmove from outside too, and not just memcpy and memset.
fn put_archive(out: &mut [u8], at: usize, src: &[u8]) -> usize
    requires { Room src.now at out.old }
    ensures { Puts src.now at out.old out.new result }
{
    for i in 0..src.len() {
        out[at + i] = src[i];
    }
    at + src.len()
}

// The archive of the book, and its length.
pub fn write_from(book: &[u8], archive: &mut [u8], length: &mut u64) -> u8
    ensures { GivesLength (write_from (held_in book.now) archive.old length.old) result archive.new length.new }
{
    let h = held(book);
    let ok = h.ok;
    if !ok {
        return Refusal::NoBook as u8;
    }
    let n = size_archive(h.book);
    if archive.len() < n {
        return Refusal::ShortBuffer as u8;
    }
    write_book(archive, h.book);
    *length = n as u64;
    0
}
