// What the calls of one attempt token share: the place of a live attempt, and the answer where there is none.
#![tactic(auto)]

ghost use Rattle.std.specs.Prelude.{◌≡◌};
ghost use Rattle.book.specs.Model.{view};
ghost use Rattle.part_replies.specs.Reply.{reply};
ghost use Rattle.part_lookup.specs.Lookup.{attempt_place};
ghost use Rattle.part_lookup.specs.Normal.{Normal};
ghost use Rattle.part_attempt_answers.specs.Live.{live_place, is_never_issued, inactive};

use book::refusal::Refusal;
use book::sound::SoundBook;
use book::{BookData, Token};
use part_lookup::{AttemptPlace, find_attempt};
use part_replies::{Reply, done, refused};

// By value: a book that is lent is first copied onto the stack, and a copy made here is gone before the rest of the call.
pub fn attempt_place(b: SoundBook, t: Token) -> AttemptPlace
    ensures { result ≡ attempt_place t.0 (view b.parts) }
{
    find_attempt(&b.parts, t)
}

pub fn live_place(p: AttemptPlace) -> Option<usize>
    ensures { result ≡ live_place p }
{
    match p {
        AttemptPlace::Live(k) => Some(k),
        _ => None,
    }
}

pub fn is_never_issued(p: AttemptPlace) -> bool
    ensures { result ≡ is_never_issued p }
{
    matches!(p, AttemptPlace::NeverIssued)
}

// A token that is not live: the value of an inactive one, or refusal 4.
pub fn inactive<T: Copy>(b: BookData, place: AttemptPlace, value: T) -> Reply<T, BookData>
    requires { Normal b }
    ensures { result ≡ reply b (inactive (view b) value place) }
{
    if is_never_issued(place) {
        return refused(b, Refusal::UnknownToken);
    }
    done(b, value)
}
