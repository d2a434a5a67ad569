// What the chain shows, the coins of retained submissions, and looks, on the book in lent bytes: read, called, settled or told.
#![tactic(auto)]

ghost use Rattle.std.specs.Prelude.{[], length};
ghost use Rattle.rules.specs.Calls.AbsentOutputsForIds.{absent_outputs_for_ids};
ghost use Rattle.rules.specs.Calls.CausallyRolledBackIds.{causally_rolled_back_ids};
ghost use Rattle.rules.specs.Calls.Look.{look_at};
ghost use Rattle.rules.specs.Calls.ReconciliationInputCoins.{reconciliation_input_coins};
ghost use Rattle.rules.specs.Calls.Summary.{summary};
ghost use Rattle.c_boundary.specs.Held.{held_in};
ghost use Rattle.c_boundary.specs.Settle.{boundary, Gives, GivesBook};
ghost use Rattle.c_boundary.specs.Forms.{no_form, ids_form, look_form, summary_form, bytes_form};
ghost use Rattle.c_calls_chain.specs.Quiet.{GivesBytes, length_of};
ghost use Rattle.c_calls_chain.specs.Report.{reporting};

use base_coin_string::{is_coin_list, is_id_list};
use book::SubmissionId;
use book::refusal::Refusal;
use book::sound::SoundBook;
use c_read::held;
use c_replies::{tell_ids, tell_look, tell_summary};
use c_write::settle_done;
use call_absent_outputs_for_ids::absent_outputs_for_ids_sound;
use call_causally_rolled_back_ids::causally_rolled_back_ids_sound;
use call_look::look_sound;
use call_reconcile_chain_terminality::reconcile_chain_terminality_sound;
use call_reconciliation_input_coins::reconciliation_input_coins_sound;
use call_summary::summary_sound;

// Each function is one call of the C interface: its parameters, and a refusal as a number, are what that has.
// Each reads the book and tests `ok` itself: a function that hands the book on would cost the call a copy of it.
pub fn causally_rolled_back_ids(book: &[u8], absent: &[u8], inputs: &[u8], answer: &mut [u8]) -> u8
    ensures { Gives (boundary ids_form (causally_rolled_back_ids absent.now inputs.now) book.now answer.old) result book.now answer.new }
{
    let h = held(book);
    if !h.ok {
        return Refusal::NoBook as u8;
    }
    let r = causally_rolled_back_ids_sound(SoundBook { parts: h.book }, absent, inputs);
    // Out of the reply, so that its book isn't made.
    let said = r.answer;
    tell_ids(&said, answer)
}

pub fn reconcile_chain_terminality(
    book: &mut [u8],
    observed: &[u8],
    spent: &[u8],
    reorg: u8,
    rolled_back: &[u64],
) -> u8
    ensures { GivesBook (boundary no_form (reporting observed.now spent.now reorg rolled_back.now) book.old []) result book.new }
{
    let h = held(&*book);
    if !h.ok {
        return Refusal::NoBook as u8;
    }
    let coins = is_coin_list(observed);
    let ids = is_id_list(spent);
    let lists = coins & ids & (rolled_back.len() <= 64);
    if !lists {
        return Refusal::BadList as u8;
    }
    if 1 < reorg {
        return Refusal::BadValue as u8;
    }
    // C has the flag as a byte.
    let f = reorg == 1;
    let r = reconcile_chain_terminality_sound(
        SoundBook { parts: h.book },
        observed,
        spent,
        f,
        rolled_back,
    );
    settle_done(r, book)
}

// The coins go into `answer` as a coin list, and its length into `count`; so in the next call.
pub fn reconciliation_input_coins(
    book: &[u8],
    outputs: &[u8],
    answer: &mut [u8],
    count: &mut u64,
) -> u8
    ensures { GivesBytes (boundary bytes_form (reconciliation_input_coins outputs.now (length answer.old)) book.now answer.old) (length_of count.old (reconciliation_input_coins outputs.now (length answer.old)) (held_in book.now)) result book.now answer.new count.new }
{
    let h = held(book);
    if !h.ok {
        return Refusal::NoBook as u8;
    }
    let r = reconciliation_input_coins_sound(SoundBook { parts: h.book }, outputs, answer);
    match r.answer {
        Ok(length) => {
            *count = length as u64;
            0
        }
        Err(refusal) => refusal as u8,
    }
}

pub fn absent_outputs_for_ids(
    book: &[u8],
    ids: &[u64],
    absent: &[u8],
    answer: &mut [u8],
    count: &mut u64,
) -> u8
    ensures { GivesBytes (boundary bytes_form (absent_outputs_for_ids ids.now absent.now (length answer.old)) book.now answer.old) (length_of count.old (absent_outputs_for_ids ids.now absent.now (length answer.old)) (held_in book.now)) result book.now answer.new count.new }
{
    let h = held(book);
    if !h.ok {
        return Refusal::NoBook as u8;
    }
    let r = absent_outputs_for_ids_sound(SoundBook { parts: h.book }, ids, absent, answer);
    match r.answer {
        Ok(length) => {
            *count = length as u64;
            0
        }
        Err(refusal) => refusal as u8,
    }
}

pub fn look(book: &[u8], id: u64, answer: &mut [u8]) -> u8
    ensures { Gives (boundary look_form (look_at id) book.now answer.old) result book.now answer.new }
{
    let h = held(book);
    if !h.ok {
        return Refusal::NoBook as u8;
    }
    let r = look_sound(SoundBook { parts: h.book }, SubmissionId(id));
    tell_look(&r.answer, answer)
}

pub fn summary(book: &[u8], answer: &mut [u8]) -> u8
    ensures { Gives (boundary summary_form summary book.now answer.old) result book.now answer.new }
{
    let h = held(book);
    if !h.ok {
        return Refusal::NoBook as u8;
    }
    let r = summary_sound(SoundBook { parts: h.book });
    tell_summary(&r.answer, answer)
}
