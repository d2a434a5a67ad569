// `look`: what the retained submission of an id holds; an id that is not retained has none, and nothing changes.
#![tactic(auto)]

ghost use Rattle.std.specs.Prelude.{◌≡◌};
ghost use Rattle.book.specs.Model.{view};
ghost use Rattle.rules.specs.Steps.{run_book};
ghost use Rattle.rules.specs.Calls.Look.{look_of, look_at};
ghost use Rattle.part_replies.specs.Reply.{reply};

use book::sound::SoundBook;
use book::{BookData, SubmissionId, SubmittedTx};
use book_answers::SubmissionLook;
use part_lookup::{position_of, submitted_at};
use part_replies::{Reply, done};
use part_submitted::drained::token_in;
use part_submitted::entry::current_applied_fee;
use part_submitted::fingerprint::current_variant_acknowledged;

#[tactic(auto, unfolding(rules::specs::Calls::Look::look_of))]
fn look_of(s: SubmittedTx) -> SubmissionLook
    ensures { result ≡ look_of s }
{
    let status = s.entry.state.status;
    SubmissionLook {
        expiry: status.expiry,
        active_attempt_token: token_in(s.slots.active_attempt),
        completed_attempt_token: token_in(s.slots.completed_attempt),
        applied_fee: current_applied_fee(s.entry),
        fee_resolution: status.fee_resolution,
        chain_terminality: status.chain_terminality,
        acknowledged: current_variant_acknowledged(s.entry),
    }
}

pub fn look_sound(b: SoundBook, id: SubmissionId) -> Reply<Option<SubmissionLook>, BookData>
    ensures { result ≡ reply b.parts (run_book (look_at id.0) (view b.parts)) }
{
    let Some(k) = position_of(&b.parts, id) else {
        return done(b.parts, None);
    };
    let s = submitted_at(&b.parts, k);
    done(b.parts, Some(look_of(s)))
}
