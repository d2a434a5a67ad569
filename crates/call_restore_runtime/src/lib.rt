// `restore_runtime`: every live attempt is set aside.
#![tactic(auto)]

ghost use Rattle.std.specs.Prelude.{◌≡◌};
ghost use Rattle.book.specs.Model.{view};
ghost use Rattle.rules.specs.Steps.{run_book, with_slots};
ghost use Rattle.rules.specs.Steps.Slots.{slots_aside};
ghost use Rattle.rules.specs.Calls.RestoreRuntime.{restore_runtime};
ghost use Rattle.part_replies.specs.Reply.{reply};

use book::sound::SoundBook;
use book::{BookData, SubmittedTx};
use part_replies::{Reply, done};
use part_slots::stopped;

// The live attempt of the submission, if any, is set aside.
fn set_aside(t: SubmittedTx) -> SubmittedTx
    ensures { result ≡ with_slots slots_aside t }
{
    SubmittedTx {
        slots: stopped(t.slots),
        ..t
    }
}

pub fn restore_runtime_sound(b: SoundBook) -> Reply<(), BookData>
    ensures { result ≡ reply b.parts (run_book restore_runtime (view b.parts)) }
{
    let mut out = b.parts;
    // By index, no longer than over the lent cells: each turn is a store into the whole book, as the rules take it.
    for i in 0..b.parts.submitted_count {
        let next = set_aside(out.submitted[i]);
        out.submitted[i] = next;
    }
    done(out, ())
}
