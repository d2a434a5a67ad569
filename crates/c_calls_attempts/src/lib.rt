// Calls by an attempt's token, on the book in lent bytes: read, called, settled. A refused call leaves every lent byte.
#![tactic(auto)]

ghost use Rattle.std.specs.Prelude.{◌≡◌};
ghost use Rattle.rules.specs.Calls.AbandonAttempt.{abandon_attempt};
ghost use Rattle.rules.specs.Calls.AcknowledgeAttempt.{acknowledge_attempt};
ghost use Rattle.rules.specs.Calls.Attempt.{attempt};
ghost use Rattle.rules.specs.Calls.FeeIntentForAttempt.{fee_intent_for_attempt};
ghost use Rattle.rules.specs.Calls.RelinquishCompletedAttempt.{relinquish_completed_attempt};
ghost use Rattle.rules.specs.Calls.StopAttempt.{stop_attempt};
ghost use Rattle.c_boundary.specs.Settle.{boundary, Gives};
ghost use Rattle.c_boundary.specs.Forms.{status_form, attempt_form, fee_intent_form, final_form};
ghost use Rattle.c_calls_attempts.specs.Finalize.{finalizing};
ghost use Rattle.c_calls_attempts.specs.Source.{joined_in};

use archive_bundle_read::bundle::read_bundle;
use book::refusal::Refusal;
use book::sound::SoundBook;
use book::{SpendBundle, Token};
use book_answers::SubmissionFeeSource;
use c_read::held;
use c_replies::{settle_final, settle_status, tell_attempt, tell_fee_intent, tell_status};
use call_abandon_attempt::abandon_attempt_sound;
use call_acknowledge_attempt::acknowledge_attempt_sound;
use call_attempt::attempt_sound;
use call_fee_intent_for_attempt::fee_intent_for_attempt_sound;
use call_finalize_attempt::finalize_attempt_sound;
use call_relinquish_completed_attempt::relinquish_completed_attempt_sound;
use call_stop_attempt::stop_attempt_sound;
use codec_cursor::FAR;

// Each function is one call of the C interface: its parameters, and a refusal as a number, are what that has.
// Each reads the book and tests `ok` itself: a function that hands the book on would cost the call a copy of it.
pub fn acknowledge_attempt(book: &mut [u8], token: u64, answer: &mut [u8]) -> u8
    ensures { Gives (boundary status_form (acknowledge_attempt token) book.old answer.old) result book.new answer.new }
{
    let h = held(&*book);
    if !h.ok {
        return Refusal::NoBook as u8;
    }
    let r = acknowledge_attempt_sound(SoundBook { parts: h.book }, Token(token));
    settle_status(r, book, answer)
}

pub fn stop_attempt(book: &mut [u8], token: u64, answer: &mut [u8]) -> u8
    ensures { Gives (boundary status_form (stop_attempt token) book.old answer.old) result book.new answer.new }
{
    let h = held(&*book);
    if !h.ok {
        return Refusal::NoBook as u8;
    }
    let r = stop_attempt_sound(SoundBook { parts: h.book }, Token(token));
    settle_status(r, book, answer)
}

pub fn abandon_attempt(book: &mut [u8], token: u64, answer: &mut [u8]) -> u8
    ensures { Gives (boundary status_form (abandon_attempt token) book.old answer.old) result book.new answer.new }
{
    let h = held(&*book);
    if !h.ok {
        return Refusal::NoBook as u8;
    }
    let r = abandon_attempt_sound(SoundBook { parts: h.book }, Token(token));
    settle_status(r, book, answer)
}

pub fn relinquish_completed_attempt(book: &[u8], token: u64, answer: &mut [u8]) -> u8
    ensures { Gives (boundary status_form (relinquish_completed_attempt token) book.now answer.old) result book.now answer.new }
{
    let h = held(book);
    if !h.ok {
        return Refusal::NoBook as u8;
    }
    let r = relinquish_completed_attempt_sound(SoundBook { parts: h.book }, Token(token));
    tell_status(&r.answer, answer)
}

pub fn fee_intent_for_attempt(book: &[u8], token: u64, answer: &mut [u8]) -> u8
    ensures { Gives (boundary fee_intent_form (fee_intent_for_attempt token) book.now answer.old) result book.now answer.new }
{
    let h = held(book);
    if !h.ok {
        return Refusal::NoBook as u8;
    }
    let r = fee_intent_for_attempt_sound(SoundBook { parts: h.book }, Token(token));
    tell_fee_intent(&r.answer, answer)
}

pub fn attempt(book: &[u8], token: u64, answer: &mut [u8]) -> u8
    ensures { Gives (boundary attempt_form (attempt token) book.now answer.old) result book.now answer.new }
{
    let h = held(book);
    if !h.ok {
        return Refusal::NoBook as u8;
    }
    let r = attempt_sound(SoundBook { parts: h.book }, Token(token));
    tell_attempt(&r.answer, answer)
}

// The joined bundle in its archive form; with any other source there are no bytes.
fn joined_in(source: u8, joined: &[u8]) -> Option<SpendBundle>
    ensures { result ≡ joined_in source joined.now }
{
    if source != 1 {
        return (joined.len() == 0).then_some(SpendBundle::zero());
    }
    let mut end: usize = 0;
    let bundle = read_bundle(joined, &mut end, false);
    ((end < FAR) & (joined.len() <= end)).then_some(bundle)
}

pub fn finalize_attempt(
    book: &mut [u8],
    token: u64,
    source: u8,
    joined: &[u8],
    answer: &mut [u8],
) -> u8
    ensures { Gives (boundary final_form (finalizing token source joined.now) book.old answer.old) result book.new answer.new }
{
    let h = held(&*book);
    if !h.ok {
        return Refusal::NoBook as u8;
    }
    let Some(s) = SubmissionFeeSource::from_number(source) else {
        return Refusal::BadValue as u8;
    };
    let Some(j) = joined_in(source, joined) else {
        return Refusal::BadValue as u8;
    };
    let r = finalize_attempt_sound(SoundBook { parts: h.book }, Token(token), s, j);
    settle_final(r, book, answer)
}
