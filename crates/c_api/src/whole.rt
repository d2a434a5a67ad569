// Opening a book, and its archive.
ghost use Rattle.c_api.specs.Functions.{CCall, OpenDid, ReadDid, Did, counted};

use c_whole::{open_into, read_into, write_from};

// Each function is one call of the C interface, whose parameters and numbers are as C has them.
// An empty book with these two numbers.
pub fn submission_book_open(book: &mut [u8], next_token: u64, next_id: u64) -> u8
    ensures { OpenDid book.old next_token next_id result book.new }
{
    open_into(book, next_token, next_id)
}

// The book of an archive; 13 with the place of its first broken item.
pub fn submission_book_read(book: &mut [u8], archive: &[u8], place: &mut u64) -> u8
    ensures { ReadDid book.old archive.now place.old result book.new place.new }
{
    read_into(book, archive, place)
}

// The archive of the book, and its length.
#[tactic(auto, using(crate::specs::Functions::write_did))]
pub fn submission_book_write(book: &[u8], archive: &mut [u8], length: &mut u64) -> u8
    ensures { Did book.now (CCall.Write archive.old length.old) (counted result book.now archive.new length.new) }
{
    write_from(book, archive, length)
}
