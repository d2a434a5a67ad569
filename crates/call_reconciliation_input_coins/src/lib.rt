// `reconciliation_input_coins`: the input coins of the submissions to be reconciled, rising and without repeats, into a lent buffer.
#![tactic(auto)]

ghost use Rattle.std.specs.Prelude.{◌≡◌, ◌≤◌, length};
ghost use Rattle.base_coin_string.specs.CoinList.{coins_in};
ghost use Rattle.book.specs.Model.{view};
ghost use Rattle.rules.specs.Steps.{run_book};
ghost use Rattle.rules.specs.Calls.ReconciliationInputCoins.{is_reconciled, input_coins_to_reconcile, reconciliation_input_coins};
ghost use Rattle.part_replies.specs.Reply.{written_reply, buffer_left};
ghost use Rattle.call_reconciliation_input_coins.specs.Inputs.{Gathered, InputsOf};

use base_coin_string::is_coin_list;
use book::refusal::Refusal;
use book::sound::SoundBook;
use book::{BookData, SubmittedEntry, SubmittedTx};
use part_chain_tests::{is_landed, output_observed};
use part_coin_lists::{Coins64, insert_inputs, put_coins};
use part_lookup::submitted;
use part_replies::{Reply, refused};
use part_written_answers::write_list;

// Not landed, or one of its outputs is to be retained.
#[tactic(auto, unfolding(rules::specs::Calls::ReconciliationInputCoins::is_reconciled, rules::specs::Calls::ReconcileChainTerminality::output_observed))]
fn is_reconciled(e: SubmittedEntry, outputs: &[u8]) -> bool
    ensures { result ≡ is_reconciled (coins_in outputs.now) e }
{
    !is_landed(e.state.status.chain_terminality) || output_observed(e.intent, outputs)
}

// The input coins of one submission among those of the submissions before it, if it is to be reconciled.
fn gather_inputs(s: Coins64, t: SubmittedTx, outputs: &[u8]) -> Coins64
    requires { s.count ≤ 60 }
    ensures { Gathered (coins_in outputs.now) t s result }
{
    if !is_reconciled(t.entry, outputs) {
        return s;
    }
    insert_inputs(s, t.entry.intent.base_bundle)
}

fn input_coins_to_reconcile(b: &SoundBook, outputs: &[u8]) -> Coins64
    ensures { InputsOf (input_coins_to_reconcile (coins_in outputs.now) (view b.now.parts)) result }
{
    let mut acc = Coins64::empty();
    let retained = submitted(&b.parts);
    for t in retained {
        acc = gather_inputs(acc, *t, outputs);
    }
    acc
}

pub fn reconciliation_input_coins_sound(
    b: SoundBook,
    outputs: &[u8],
    out: &mut [u8],
) -> Reply<usize, BookData>
    ensures { (result ≡ written_reply b.parts (run_book (reconciliation_input_coins outputs.now (length out.old)) (view b.parts))) × (out.new ≡ buffer_left out.old (run_book (reconciliation_input_coins outputs.now (length out.old)) (view b.parts))) }
{
    if !is_coin_list(outputs) {
        return refused(b.parts, Refusal::BadList);
    }
    let coins = input_coins_to_reconcile(&b, outputs);
    // The largest list in local memory, and how much of it is written: the library has no heap.
    let mut list = [0u8; 4736];
    let p = put_coins(&mut list, coins);
    write_list(b, p.count, &list[..p.at], out)
}
