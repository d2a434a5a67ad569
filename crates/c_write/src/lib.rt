// The book and the answer of a call, put back into the lent bytes. Refusals first, so that a refused call leaves every lent byte.
#![tactic(auto)]

ghost use Rattle.std.specs.Prelude.{◌≡◌, List, [], ℕ, length};
ghost use Rattle.book.specs.Model.{view};
ghost use Rattle.c_answer.specs.Answer.{GivesAnswer};
ghost use Rattle.codec_append.specs.Fits.{FitsWithin};
ghost use Rattle.c_boundary.specs.Settle.{Gives, GivesBook, coded, written, finish};
ghost use Rattle.c_boundary.specs.Looks.{told_by};

use archive_size::size_archive;
use archive_write::write_book;
use book::BookData;
use book::refusal::Refusal;
use c_answer::put_answer;
use codec_answers::value::answer_number;
use codec_forms::write::{put_bytes, put_number};
use part_replies::Reply;

// The book alone. What is written stands in this function and the next, and not in one that both call: that would cost every call a copy of the book.
// The functions here answer 0 or the number of a refusal, and no `Result`: that number is what the exported function answers.
pub fn put_back(number: u8, next: BookData, book: &mut [u8]) -> u8
    ensures { GivesBook (written number (view next) [] book.old []) result book.new }
{
    let n = size_archive(next);
    if book.len() < 8 + n {
        return Refusal::ShortBuffer as u8;
    }
    let at = put_number(&mut *book, 0, n as u64);
    write_book(&mut book[at..], next);
    number
}

// The book, and the answer l.
pub fn put_both(number: u8, next: BookData, l: &[u8], book: &mut [u8], answer: &mut [u8]) -> u8
    ensures { Gives (written number (view next) l.now book.old answer.old) result book.new answer.new }
{
    let n = size_archive(next);
    if book.len() < 8 + n {
        return Refusal::ShortBuffer as u8;
    }
    if answer.len() < l.len() {
        return Refusal::ShortBuffer as u8;
    }
    let at = put_number(&mut *book, 0, n as u64);
    write_book(&mut book[at..], next);
    put_bytes(answer, 0, l);
    number
}

// An answer with the bytes of its value, and the book.
pub fn settle(
    said: Result<(), Refusal>,
    next: BookData,
    l: &[u8],
    book: &mut [u8],
    answer: &mut [u8],
) -> u8
    ensures { Gives (finish (coded (λ _. l.now) said) next book.old answer.old) result book.new answer.new }
{
    match said {
        Ok(()) => put_both(0, next, l, book, answer),
        Err(refusal) => put_both(refusal as u8, next, &[], book, answer),
    }
}

// The answer of a call that only looks, with the bytes of its value, and no book.
pub fn tell(said: Result<(), Refusal>, l: &[u8], answer: &mut [u8]) -> u8
    ensures { GivesAnswer (told_by (coded (λ _. l.now) said) answer.old) result answer.new }
{
    match said {
        Ok(()) => put_answer(l, answer),
        Err(refusal) => refusal as u8,
    }
}

// A reply. The bytes of its value are made first, by the function that the caller names, in room that is enough for any value: so a call
// whose answer or book does not fit leaves every lent byte. The ghost value is the form of a value.
// The clause with `IsAlwaysCallable` is std's form for a function that is lent, here and in `tell_value`. `put_both` is called here and not through
// `settle`, which would cost every call a copy of the book.
pub fn settle_value<T: Copy, F: Fn(&mut [u8], usize, &T) -> usize>(
    r: Reply<T, BookData>,
    room: &mut [u8],
    append: F,
    book: &mut [u8],
    answer: &mut [u8],
) -> u8
    ghost form: { T → List ℕ }
    requires callable { F.IsAlwaysCallable append }
    requires appends { (d : _) (e : _) (x : _) (k : _) (d' : _) → F.post append d e x k d' → FitsWithin (length room.now) (form x.now) e d.now d'.now k }
    ensures { Gives (finish (coded form r.answer) r.book book.old answer.old) result book.new answer.new }
{
    match &r.answer {
        Ok(value) => {
            let n = append(&mut *room, 0, value);
            put_both(0, r.book, &room[..n], book, answer)
        }
        Err(refusal) => put_both(*refusal as u8, r.book, &[], book, answer),
    }
}

// The reply of a call that only looks: the bytes of its value, and no book.
pub fn tell_value<T, F: Fn(&mut [u8], usize, &T) -> usize>(
    said: &Result<T, Refusal>,
    room: &mut [u8],
    append: F,
    answer: &mut [u8],
) -> u8
    ghost form: { T → List ℕ }
    requires callable { F.IsAlwaysCallable append }
    requires appends { (d : _) (e : _) (x : _) (k : _) (d' : _) → F.post append d e x k d' → FitsWithin (length room.now) (form x.now) e d.now d'.now k }
    ensures { GivesAnswer (told_by (coded form said.now) answer.old) result answer.new }
{
    match said {
        Ok(value) => {
            let n = append(&mut *room, 0, value);
            put_answer(&room[..n], answer)
        }
        Err(refusal) => *refusal as u8,
    }
}

// A reply without a value.
pub fn settle_done<T: Copy>(r: Reply<T, BookData>, book: &mut [u8]) -> u8
    ensures { GivesBook (finish (coded (λ _. []) r.answer) r.book book.old []) result book.new }
{
    let number = answer_number(&r.answer);
    put_back(number, r.book, book)
}
