// `reconcile_chain_terminality`: each submission in turn is Landed, InputSpent, Active again, or as it was.
#![tactic(auto)]

ghost use Rattle.std.specs.Prelude.{◌≡◌, [], ◌<◌, length, get_or};
ghost use Rattle.base_coin_string.specs.CoinIds.{ids_in};
ghost use Rattle.base_coin_string.specs.CoinList.{coins_in};
ghost use Rattle.book.specs.Zero.{zero_submitted};
ghost use Rattle.book.specs.Model.{view, back};
ghost use Rattle.book.specs.Sound.{id_of};
ghost use Rattle.rules.specs.Rule.{unreplay, ended};
ghost use Rattle.rules.specs.Steps.{note_book, run_book};
ghost use Rattle.rules.specs.Calls.ReconcileChainTerminality.{spent_as, halt as haltRule, judge as judgeRule, judge_each, reconcile_chain_terminality};
ghost use Rattle.part_replies.specs.Reply.{reply, outcome_by};
ghost use Rattle.part_lookup.specs.Normal.{Normal};
ghost use Rattle.call_reconcile_chain_terminality.specs.Halt.{halted_tx, reactivate_rule};

use base_coin_string::{is_coin_list, is_id_list};
use book::refusal::Refusal;
use book::sound::SoundBook;
use book::{BookData, SubmissionChainTerminality, SubmissionId, SubmittedTx};
use part_chain_tests::{input_spent, is_landed, output_observed};
use part_change::{retire, set_epoch, store_submitted, unqueue};
use part_lookup::submitted_at;
use part_replies::{Reply, refused, settled};
use part_slots::stopped;
use part_submitted::revise::with_terminality;

// The terminality anew, and the live attempt, if any, set aside.
fn halted(t: SubmittedTx, c: SubmissionChainTerminality) -> SubmittedTx
    ensures { result ≡ halted_tx c t }
{
    SubmittedTx {
        slots: stopped(t.slots),
        entry: with_terminality(t.entry, c),
    }
}

// `Normal b` and no sound book: between two changes of a call a book is not known to be sound.
// The replay mark of the id goes.
fn unmark(b: BookData, id: SubmissionId) -> BookData
    requires { Normal b }
    ensures { result ≡ back (note_book (unreplay id.0) (view b)) }
{
    set_epoch(b, part_replay::remove(b.replay_epoch, id))
}

// `k` and the book, here and below: a place is one of this book only, and a struct of both would lend or copy the book.
// The submission at k is out of replay and queue, its live attempt set aside, and it is retired once.
fn halt(b: SoundBook, k: usize, c: SubmissionChainTerminality) -> Result<SoundBook, Refusal>
    requires { k < length (view b.parts).submitted }
    ensures { run_book (haltRule (id_of (get_or (view b.parts).submitted k zero_submitted)) c) (view b.parts) ≡ outcome_by tt result }
{
    let t = submitted_at(&b.parts, k);
    let id = t.entry.id;
    let stored = store_submitted(b.parts, k, halted(t, c));
    let out = unqueue(unmark(stored, id), id);
    let parts = retire(out, id)?;
    Ok(SoundBook { parts })
}

// The submission at k is Active again.
fn reactivate(b: SoundBook, k: usize) -> SoundBook
    requires { k < length (view b.parts).submitted }
    ensures { run_book (reactivate_rule (id_of (get_or (view b.parts).submitted k zero_submitted))) (view b.parts) ≡ ended (view result.parts) [] tt }
{
    let t = submitted_at(&b.parts, k);
    let entry = with_terminality(t.entry, SubmissionChainTerminality::Active);
    SoundBook {
        parts: store_submitted(b.parts, k, SubmittedTx { entry, ..t }),
    }
}

// InputSpent, except that Landed stays if not a reorg.
fn spent_as(c: SubmissionChainTerminality, reorg: bool) -> SubmissionChainTerminality
    ensures { result ≡ spent_as reorg c }
{
    if !reorg && is_landed(c) {
        return SubmissionChainTerminality::Landed;
    }
    SubmissionChainTerminality::InputSpent
}

// The call's four arguments go on as they came, as in the rules' `judge`: its contract names each.
// The submission at k: Landed, else an input spent, else Active if rolled back.
fn judge(
    b: SoundBook,
    k: usize,
    observed: &[u8],
    spent: &[u8],
    reorg: bool,
    rolled_back: &[u64],
) -> Result<SoundBook, Refusal>
    requires { k < length (view b.parts).submitted }
    ensures { run_book (judgeRule (coins_in observed.now) (ids_in spent.now) reorg rolled_back.now (get_or (view b.parts).submitted k zero_submitted)) (view b.parts) ≡ outcome_by tt result }
{
    let t = submitted_at(&b.parts, k);
    let e = t.entry;
    if output_observed(e.intent, observed) {
        return halt(b, k, SubmissionChainTerminality::Landed);
    }
    if input_spent(e.intent, spent) {
        return halt(b, k, spent_as(e.state.status.chain_terminality, reorg));
    }
    if rolled_back.contains(&e.id.0) {
        return Ok(reactivate(b, k));
    }
    Ok(b)
}

// Each submission in turn; full where a retirement is a 65th.
fn judge_each(
    b: SoundBook,
    observed: &[u8],
    spent: &[u8],
    reorg: bool,
    rolled_back: &[u64],
) -> Result<SoundBook, Refusal>
    ensures { run_book (judge_each (coins_in observed.now) (ids_in spent.now) reorg rolled_back.now (view b.parts).submitted) (view b.parts) ≡ outcome_by tt result }
{
    let mut out = b;
    // By place: each turn judges a submission of the book that the turns before it left.
    for k in 0..b.parts.submitted_count {
        out = judge(out, k, observed, spent, reorg, rolled_back)?;
    }
    Ok(out)
}

pub fn reconcile_chain_terminality_sound(
    b: SoundBook,
    observed: &[u8],
    spent: &[u8],
    reorg: bool,
    rolled_back: &[u64],
) -> Reply<(), BookData>
    ensures { result ≡ reply b.parts (run_book (reconcile_chain_terminality observed.now spent.now reorg rolled_back.now) (view b.parts)) }
{
    let coins = is_coin_list(observed);
    let ids = is_id_list(spent);
    let ok = coins & ids & (rolled_back.len() <= 64);
    if !ok {
        return refused(b.parts, Refusal::BadList);
    }
    let left = judge_each(b, observed, spent, reorg, rolled_back);
    settled(b.parts, left, ())
}
