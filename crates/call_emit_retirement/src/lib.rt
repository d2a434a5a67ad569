// `emit_retirement`: the id is retired, once.
#![tactic(auto)]

ghost use Rattle.std.specs.Prelude.{◌≡◌};
ghost use Rattle.book.specs.Model.{view};
ghost use Rattle.rules.specs.Steps.{run_book};
ghost use Rattle.rules.specs.Calls.EmitRetirement.{emit_retirement};
ghost use Rattle.part_replies.specs.Reply.{reply};

use book::sound::SoundBook;
use book::{BookData, SubmissionId};
use part_change::retire;
use part_replies::{Reply, done, refused};

// Refused 10, and the book as it came, where the retirement would be a 65th.
pub fn emit_retirement_sound(b: SoundBook, id: SubmissionId) -> Reply<(), BookData>
    ensures { result ≡ reply b.parts (run_book (emit_retirement id.0) (view b.parts)) }
{
    match retire(b.parts, id) {
        Ok(retired) => done(retired, ()),
        Err(r) => refused(b.parts, r),
    }
}
