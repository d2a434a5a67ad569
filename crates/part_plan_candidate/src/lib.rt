// What a drain plans for one candidate, from the submission that it is for and the numbers of the book. No function here has the book.
#![tactic(auto)]

ghost use Rattle.std.specs.Prelude.{◌≡◌, ◌≤◌, ◌<◌};
ghost use Rattle.book.specs.Model.{id_list, id_cells};
ghost use Rattle.rules.specs.Parts.{intent_of};
ghost use Rattle.rules.specs.Calls.Plan.{miss_of, wanted, last64};
ghost use Rattle.part_plan.specs.Plan.{met_plan, removal_plan, known_plan, retain_plan, unknown_plan};

use book::{
    AttemptSlots, Ids, PendingDelivery, PendingSubmissionIntent, SubmissionDeliveryGoal,
    SubmissionId, SubmittedEntry, SubmittedTx,
};
use book_answers::{DrainFailureCause, SubmissionDrainFailure};
use book_sound::is_readable_bundle;
use part_ids::{has, push_new};
use part_plan::{
    PlanAction, PlanAnswer, SubmissionPlanDelta, SubmittedPlace, deliver, failing, fails, storing,
};
use part_submitted::drained::new_entry;
use part_submitted::entry::{active_entry, fee_unresolved, same_fee_intent};
use part_submitted::fingerprint::{current_variant_acknowledged, validate};
use part_submitted::revise::tighten;

// ---- the tests on a retained submission
#[tactic(auto, unfolding(rules::specs::Calls::Plan::miss_of))]
fn miss_of(p: PendingSubmissionIntent, f: [u8; 32], e: SubmittedEntry) -> Option<DrainFailureCause>
    ensures { result ≡ miss_of p f e }
{
    if !same_fee_intent(p.fee_intent, e.intent.fee_intent) {
        return Some(DrainFailureCause::FeeIntentDiffers);
    }
    if !validate(e) {
        return Some(DrainFailureCause::InvalidRetainedState);
    }
    if e.intent.intent_fingerprint != f {
        return Some(DrainFailureCause::IntentDiffers);
    }
    None
}

#[tactic(auto, unfolding(rules::specs::Calls::Plan::wanted))]
fn should_emit(goal: SubmissionDeliveryGoal, e: SubmittedEntry) -> bool
    ensures { result ≡ wanted goal e }
{
    if !active_entry(e) {
        return false;
    }
    if goal == SubmissionDeliveryGoal::EnsureBroadcast {
        return !current_variant_acknowledged(e);
    }
    fee_unresolved(e)
}

// The clauses on `count`, here and below: `Ids` is the counted array of the book, whose public count may be any.
// ---- a candidate whose submission is retained
// The candidate fits: the expiry is tightened, also where nothing is emitted.
#[tactic(auto, unfolding(part_plan::specs::Plan::met_plan))]
fn met(
    place: SubmittedPlace,
    emitted: &Ids<16>,
    c: &PendingDelivery,
    t: SubmittedTx,
) -> SubmissionPlanDelta
    requires { emitted.now.count ≤ 16 }
    ensures { result ≡ met_plan place (id_list emitted.now) c.now t }
{
    let next = tighten(t.entry, c.intent.expiry);
    let tx = SubmittedTx { entry: next, ..t };
    if should_emit(c.goal, t.entry) {
        return deliver(place, emitted, tx, c.goal);
    }
    storing(PlanAnswer::Planned(PlanAction::Stored), place, tx)
}

// The submission goes, unless its retirement would be a 65th.
#[tactic(auto, unfolding(part_plan::specs::Plan::removal_plan, part_ids::specs::Ids::push_within))]
fn removal(retired: &Ids<64>, f: SubmissionDrainFailure) -> SubmissionPlanDelta
    requires { (retired.now.count ≤ 64) × (retired.now ≡ id_cells 64 (id_list retired.now)) }
    ensures { result ≡ removal_plan (id_list retired.now) f }
{
    let mut next = *retired;
    if push_new(&mut next, f.candidate_id).is_err() {
        return failing(PlanAnswer::Full, f);
    }
    failing(PlanAnswer::Planned(PlanAction::Removed), f)
}

// The candidate at n, of fingerprint f, whose submission is t.
#[tactic(auto, unfolding(part_plan::specs::Plan::known_plan))]
pub fn known(
    place: SubmittedPlace,
    emitted: &Ids<16>,
    retired: &Ids<64>,
    n: usize,
    c: &PendingDelivery,
    f: [u8; 32],
    t: SubmittedTx,
) -> SubmissionPlanDelta
    requires { (emitted.now.count ≤ 16) × (retired.now.count ≤ 64) × (retired.now ≡ id_cells 64 (id_list retired.now)) }
    ensures { result ≡ known_plan place (id_list emitted.now) (id_list retired.now) n c.now f t }
{
    let Some(cause) = miss_of(c.intent, f, t.entry) else {
        return met(place, emitted, c, t);
    };
    let failure = SubmissionDrainFailure {
        candidate_index: n,
        cause,
        candidate_id: t.entry.id,
        intent_fingerprint: f,
    };
    removal(retired, failure)
}

// ---- a candidate of which none is retained
// A new submission under the next id, behind the others.
#[tactic(auto, unfolding(part_plan::specs::Plan::retain_plan))]
fn retain(
    place: SubmittedPlace,
    emitted: &Ids<16>,
    c: &PendingDelivery,
    f: [u8; 32],
) -> SubmissionPlanDelta
    requires { (emitted.now.count ≤ 16) × (f ≡ intent_of c.now.intent) × (place.next_id.0 < last64) × (place.count < 16) }
    ensures { result ≡ retain_plan place (id_list emitted.now) c.now }
{
    let tx = SubmittedTx {
        slots: AttemptSlots::zero(),
        entry: new_entry(place.next_id, c.intent, f),
    };
    let after = SubmittedPlace {
        index: place.count,
        count: place.count + 1,
        next_id: SubmissionId(place.next_id.0 + 1),
        next_token: place.next_token,
    };
    deliver(after, emitted, tx, c.goal)
}

// The candidate at n, of fingerprint f; the ids are those of the submissions.
#[tactic(auto, unfolding(part_plan::specs::Plan::unknown_plan))]
pub fn unknown(
    place: SubmittedPlace,
    emitted: &Ids<16>,
    ids: &Ids<16>,
    n: usize,
    c: &PendingDelivery,
    f: [u8; 32],
) -> SubmissionPlanDelta
    requires { (emitted.now.count ≤ 16) × (ids.now.count ≤ 16) × (f ≡ intent_of c.now.intent) × (place.count ≤ 16) }
    ensures { result ≡ unknown_plan place (id_list emitted.now) (id_list ids.now) n c.now f }
{
    let id = place.next_id;
    if has(ids, id) {
        return fails(n, DrainFailureCause::IdCollides, id, f);
    }
    if !is_readable_bundle(&c.intent.bundle) {
        return fails(n, DrainFailureCause::OutputsUnreadable, id, f);
    }
    // The bound is a number and no id.
    if id.0 == u64::MAX {
        return fails(n, DrainFailureCause::IdsExhausted, id, f);
    }
    if place.count == 16 {
        return failing(PlanAnswer::Full, SubmissionDrainFailure::zero());
    }
    retain(place, emitted, c, f)
}
