// What a call answers, beside the book that it leaves: its value, or why it was turned away.
#![tactic(auto)]

ghost use Rattle.std.specs.Prelude.{◌≡◌, Ok};
ghost use Rattle.rules.specs.Rule.{undone};
ghost use Rattle.part_replies.specs.Reply.{reply, outcome_by};

use book::BookData;
use book::refusal::Refusal;
use book::sound::SoundBook;

#[derive(Clone, Copy)]
pub struct Reply<T, B> {
    pub answer: Result<T, Refusal>,
    pub book: B,
}

// The book as it was.
pub fn refused<T>(book: BookData, r: Refusal) -> Reply<T, BookData>
    ensures { result ≡ reply book (undone r) }
{
    Reply {
        answer: Err(r),
        book,
    }
}

pub fn done<T>(book: BookData, value: T) -> Reply<T, BookData>
    ensures { result ≡ record { answer = Ok value; book = book } }
{
    Reply {
        answer: Ok(value),
        book,
    }
}

// A call on the book b whose rules came to `left`: their sound book with the value, or their refusal.
pub fn settled<T: Copy>(
    b: BookData,
    left: Result<SoundBook, Refusal>,
    value: T,
) -> Reply<T, BookData>
    ensures { result ≡ reply b (outcome_by value left) }
{
    match left {
        Ok(next) => done(next.parts, value),
        Err(r) => refused(b, r),
    }
}
