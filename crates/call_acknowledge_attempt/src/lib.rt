// `acknowledge_attempt`: the finalised variant is acknowledged, the attempt set aside, and queue entries of the submission go.
#![tactic(auto)]

ghost use Rattle.std.specs.Prelude.{◌<◌, ◌≡◌, length};
ghost use Rattle.book.specs.Model.{view};
ghost use Rattle.rules.specs.Rule.{acknowledge as acknowledged};
ghost use Rattle.rules.specs.Steps.{with_entry, with_slots, run_book};
ghost use Rattle.rules.specs.Steps.Entry.{revised};
ghost use Rattle.rules.specs.Steps.Slots.{slots_aside};
ghost use Rattle.rules.specs.Calls.AcknowledgeAttempt.{acknowledge_live, acknowledge_attempt};
ghost use Rattle.part_replies.specs.Reply.{reply};
ghost use Rattle.part_attempt_answers.specs.Live.{at};

use book::refusal::Refusal;
use book::sound::SoundBook;
use book::{BookData, SubmittedTx, Token};
use book_answers::SubmissionAttemptStatus;
use part_attempt_answers::{attempt_place, inactive, live_place};
use part_change::unqueue;
use part_replies::{Reply, done, refused};
use part_slots::{resolved_variant_fingerprint, stopped};
use part_submitted::fingerprint::current_variant_fingerprint;
use part_submitted::revise::acknowledge;

// The look-up of the token is that of the other attempt calls: a shared one would be told the rest of the call, with its contract.
pub fn acknowledge_attempt_sound(b: SoundBook, t: Token) -> Reply<SubmissionAttemptStatus, BookData>
    ensures { result ≡ reply b.parts (run_book (acknowledge_attempt t.0) (view b.parts)) }
{
    let place = attempt_place(b, t);
    let Some(k) = live_place(place) else {
        return inactive(b.parts, place, SubmissionAttemptStatus::Stale);
    };
    acknowledge_live(b, k)
}

// A place is one of this book only: a struct of both would lend or copy the book.
fn acknowledge_live(mut b: SoundBook, k: usize) -> Reply<SubmissionAttemptStatus, BookData>
    requires { k < length (view b.parts).submitted }
    ensures { result ≡ reply b.parts (run_book (acknowledge_live (at (view b.parts) k)) (view b.parts)) }
{
    let s = b.parts.submitted[k];
    let a = s.slots.active_attempt.attempt;
    // Paper 01: an optional digest is a mark with the digest beside it.
    if !a.finalized_variant_fingerprint.present {
        return refused(b.parts, Refusal::NotFinalized);
    }
    let f = resolved_variant_fingerprint(a);
    if current_variant_fingerprint(s.entry) != f {
        return refused(b.parts, Refusal::StaleVariant);
    }
    b.parts.submitted[k] = acknowledged_aside(s, f);
    let left = unqueue(b.parts, s.entry.id);
    done(left, SubmissionAttemptStatus::Applied)
}

// The variant of this fingerprint is acknowledged and the live attempt set aside.
fn acknowledged_aside(s: SubmittedTx, f: [u8; 32]) -> SubmittedTx
    ensures { result ≡ with_slots slots_aside (with_entry (revised (acknowledged f)) s) }
{
    SubmittedTx {
        slots: stopped(s.slots),
        entry: acknowledge(s.entry, f),
    }
}
