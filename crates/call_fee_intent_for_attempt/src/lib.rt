// `fee_intent_for_attempt`: the fee intent of a live attempt.
#![tactic(auto)]

ghost use Rattle.std.specs.Prelude.{◌≡◌};
ghost use Rattle.book.specs.Model.{view};
ghost use Rattle.rules.specs.Steps.{run_book};
ghost use Rattle.rules.specs.Calls.FeeIntentForAttempt.{fee_intent_for_attempt};
ghost use Rattle.part_replies.specs.Reply.{reply};

use book::sound::SoundBook;
use book::{BookData, SubmissionFeeIntent, Token};
use part_attempt_answers::{inactive, live_place};
use part_lookup::{find_attempt, submitted_at};
use part_replies::{Reply, done};
use part_submitted::entry::open_fee_intent;

// The look-up of the token is that of the other attempt calls: a shared one would be told the rest of the call, with its contract.
pub fn fee_intent_for_attempt_sound(
    b: SoundBook,
    t: Token,
) -> Reply<Option<SubmissionFeeIntent>, BookData>
    ensures { result ≡ reply b.parts (run_book (fee_intent_for_attempt t.0) (view b.parts)) }
{
    let place = find_attempt(&b.parts, t);
    let Some(k) = live_place(place) else {
        return inactive(b.parts, place, None);
    };
    let s = submitted_at(&b.parts, k);
    done(b.parts, Some(open_fee_intent(s.entry)))
}
