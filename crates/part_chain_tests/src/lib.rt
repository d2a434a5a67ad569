// Tests of one submission's base bundle against the coins and coin ids that a call lists.
#![tactic(auto)]

ghost use Rattle.std.specs.Prelude.{◌≡◌, ◌||◌, ◌<◌};
ghost use Rattle.std.specs.List.{list_all, list_any};
ghost use Rattle.base_lists.specs.Bytes.{eqs, is_in};
ghost use Rattle.base_coin_string.specs.Coin.{coin_of_parts, coin_id_of};
ghost use Rattle.base_coin_string.specs.CoinIds.{ids_in};
ghost use Rattle.base_coin_string.specs.CoinList.{coins_in};
ghost use Rattle.rules.specs.Doors.{among};
ghost use Rattle.rules.specs.Parts.{is_input_spent, is_landed};
ghost use Rattle.rules.specs.Calls.ReconcileChainTerminality.{output_observed, input_spent};
ghost use Rattle.rules.specs.Calls.CausallyRolledBackIds.{outer_input_ids, rolled_back};
ghost use Rattle.part_chain_tests.specs.Made.{spend_makes, bundle_makes};
ghost use Rattle.part_chain_tests.specs.Laws.{live_or_made};

use base_coin_string::{from_parts, has_id, to_coin_id};
use book::{
    CoinSpend, Output, RetainedIntent, SpendBundle, SubmissionChainTerminality, SubmittedEntry,
};
use book_coins::{at_most_four, first_output_among, input_coin_id, input_coin_ids};
use part_submitted::entry::active_entry;

// An expected output is one of the coins observed.
pub fn output_observed(p: RetainedIntent, observed: &[u8]) -> bool
    ensures { result ≡ output_observed (coins_in observed.now) p }
{
    first_output_among(p.base_bundle, observed).is_some()
}

// One chain for each type, here and below: a shared one would be told its test, with what that test must promise.
// One of the ids is listed.
fn any_listed(ids: &[[u8; 32]], listed: &[u8]) -> bool
    ensures { result ≡ list_any (is_in (ids_in listed.now)) ids.now }
{
    ids.iter().any(|id| has_id(listed, id))
}

// Counts beside arrays, as the book has them (no heap): here and below the cells in use are taken by `at_most_four`.
// The id of an input is one of those spent.
pub fn input_spent(p: RetainedIntent, spent: &[u8]) -> bool
    ensures { result ≡ input_spent (ids_in spent.now) p }
{
    let b = p.base_bundle;
    let n = at_most_four(b.count);
    let ids = input_coin_ids(b);
    any_listed(&ids[..n], spent)
}

// The coin of an output has this id.
fn output_is(o: Output, parent: [u8; 32], id: [u8; 32]) -> bool
    ensures { result ≡ eqs (coin_id_of (coin_of_parts parent o.puzzle_hash o.amount)) id }
{
    let c = from_parts(parent, o.puzzle_hash, o.amount);
    to_coin_id(c.bytes, c.len) == id
}

// One of the outputs makes the coin of this id.
fn outputs_make(outputs: &[Output], parent: [u8; 32], id: [u8; 32]) -> bool
    ensures { result ≡ list_any (λ o. eqs (coin_id_of (coin_of_parts parent o.puzzle_hash o.amount)) id) outputs.now }
{
    outputs.iter().any(|o| output_is(*o, parent, id))
}

// A spend makes the coin of this id.
fn spend_makes(s: CoinSpend, id: [u8; 32]) -> bool
    ensures { result ≡ spend_makes id s }
{
    let n = at_most_four(s.output_count);
    outputs_make(&s.outputs[..n], input_coin_id(s), id)
}

// One of the spends makes the coin of this id.
fn spends_make(spends: &[CoinSpend], id: [u8; 32]) -> bool
    ensures { result ≡ list_any (spend_makes id) spends.now }
{
    spends.iter().any(|s| spend_makes(*s, id))
}

// A spend of the bundle makes the coin of this id.
fn bundle_makes(b: SpendBundle, id: [u8; 32]) -> bool
    ensures { result ≡ bundle_makes id b }
{
    let n = at_most_four(b.count);
    spends_make(&b.spends[..n], id)
}

// The coin of this id is live, or the bundle itself makes it.
fn live_or_made(b: SpendBundle, id: [u8; 32], inputs: &[u8]) -> bool
    ensures { result ≡ (is_in (ids_in inputs.now) id || bundle_makes id b) }
{
    has_id(inputs, &id) || bundle_makes(b, id)
}

// All of the ids are of coins that are live, or that the bundle makes.
fn all_live_or_made(b: SpendBundle, ids: &[[u8; 32]], inputs: &[u8]) -> bool
    ensures { result ≡ list_all (live_or_made (ids_in inputs.now) b) ids.now }
{
    ids.iter().all(|id| live_or_made(b, *id, inputs))
}

// Every input from outside the bundle is live.
fn outer_inputs_live(b: SpendBundle, inputs: &[u8]) -> bool
    ensures { result ≡ list_all (among (ids_in inputs.now)) (outer_input_ids b) }
{
    let n = at_most_four(b.count);
    let ids = input_coin_ids(b);
    all_live_or_made(b, &ids[..n], inputs)
}

pub fn is_landed(c: SubmissionChainTerminality) -> bool
    ensures { result ≡ is_landed c }
{
    c == SubmissionChainTerminality::Landed
}

// InputSpent, or an expected output is absent.
fn spent_or_absent(e: SubmittedEntry, absent: &[u8]) -> bool
    ensures { result ≡ (is_input_spent e.state.status.chain_terminality || output_observed (coins_in absent.now) e.intent) }
{
    e.state.status.chain_terminality == SubmissionChainTerminality::InputSpent
        || output_observed(e.intent, absent)
}

// The chain no longer holds what made the submission terminal, and every input from outside is live.
#[tactic(auto, unfolding(rules::specs::Calls::CausallyRolledBackIds::rolled_back, rules::specs::Calls::ReconcileChainTerminality::output_observed))]
pub fn rolled_back(e: SubmittedEntry, absent: &[u8], inputs: &[u8]) -> bool
    ensures { result ≡ rolled_back (coins_in absent.now) (ids_in inputs.now) e }
{
    !active_entry(e)
        && spent_or_absent(e, absent)
        && outer_inputs_live(e.intent.base_bundle, inputs)
}
