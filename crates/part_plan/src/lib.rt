// What a drain plans for one candidate, as data, and the plan that issues a token. No function here has the book.
#![tactic(auto)]

ghost use Rattle.std.specs.Prelude.{◌≡◌, ◌≤◌, ◌<◌};
ghost use Rattle.book.specs.Model.{id_list};
ghost use Rattle.rules.specs.Calls.Plan.{last64};
ghost use Rattle.part_plan.specs.declared.PlanAction.TheVariants.{Failed};
ghost use Rattle.part_plan.specs.declared.PlanAnswer.TheVariants.{Planned};
ghost use Rattle.part_plan.specs.Plan.{failing, failure_at, storing, issue_plan, deliver_plan};

use book::{Ids, SubmissionDeliveryGoal, SubmissionId, SubmittedTx, Token};
use book_answers::{DrainFailureCause, DrainedSubmission, SubmissionDrainFailure};
use part_ids::has;
use part_slots::{issued, taken};
use part_submitted::drained::handed;
use part_submitted::fingerprint::current_variant_fingerprint;

// What becomes of a candidate: passed over, or a failure that leaves the book, or one that removes its submission; its submission is
// stored without a token, or with the next token.
#[derive(Clone, Copy)]
pub enum PlanAction {
    Passed,
    Failed,
    Removed,
    Stored,
    Issued,
}

// The book would be full; or the submission is stored where no token is left; or the candidate is planned. No `Result`: what is stored
// stands beside the answer in both of the last two cases.
#[derive(Clone, Copy)]
pub enum PlanAnswer {
    Full,
    Exhausted,
    Planned(PlanAction),
}

// Where a submission is stored, and the book's numbers with it.
#[derive(Clone, Copy)]
pub struct SubmittedPlace {
    pub index: usize,
    pub count: usize,
    pub next_id: SubmissionId,
    pub next_token: Token,
}

// No enum with its values: place and submission would stand in three variants, and be taken out of each before one store.
// What the answer does not use is zero.
#[derive(Clone, Copy)]
pub struct SubmissionPlanDelta {
    pub answer: PlanAnswer,
    pub place: SubmittedPlace,
    pub tx: SubmittedTx,
    pub submission: DrainedSubmission,
    pub failure: SubmissionDrainFailure,
}

// A plan that stores nothing.
pub fn failing(answer: PlanAnswer, f: SubmissionDrainFailure) -> SubmissionPlanDelta
    ensures { result ≡ failing answer f }
{
    let place = SubmittedPlace {
        index: 0,
        count: 0,
        next_id: SubmissionId(0),
        next_token: Token(0),
    };
    SubmissionPlanDelta {
        answer,
        place,
        tx: SubmittedTx::zero(),
        submission: DrainedSubmission::zero(),
        failure: f,
    }
}

// A plan that stores a submission and hands nothing out.
pub fn storing(answer: PlanAnswer, place: SubmittedPlace, tx: SubmittedTx) -> SubmissionPlanDelta
    ensures { result ≡ storing answer place tx }
{
    SubmissionPlanDelta {
        answer,
        place,
        tx,
        submission: DrainedSubmission::zero(),
        failure: SubmissionDrainFailure::zero(),
    }
}

// The candidate fails, and no submission goes.
pub fn fails(
    n: usize,
    cause: DrainFailureCause,
    id: SubmissionId,
    f: [u8; 32],
) -> SubmissionPlanDelta
    ensures { result ≡ failing (Planned Failed) (failure_at n cause id f) }
{
    let failure = SubmissionDrainFailure {
        candidate_index: n,
        cause,
        candidate_id: id,
        intent_fingerprint: f,
    };
    failing(PlanAnswer::Planned(PlanAction::Failed), failure)
}

// ---- issuing
// The submission with the next token as live.
#[tactic(auto, unfolding(crate::specs::Plan::issue_plan))]
fn issue(place: SubmittedPlace, t: SubmittedTx, goal: SubmissionDeliveryGoal) -> SubmissionPlanDelta
    requires { place.next_token.0 < last64 }
    ensures { result ≡ issue_plan place t goal }
{
    let token = place.next_token;
    let slots = t.slots;
    let entry = t.entry;
    let fingerprint = current_variant_fingerprint(entry);
    let submission = handed(token, goal, entry, taken(slots), fingerprint);
    let live = issued(slots, token, goal, fingerprint);
    let after = SubmittedPlace {
        next_token: Token(token.0 + 1),
        ..place
    };
    SubmissionPlanDelta {
        answer: PlanAnswer::Planned(PlanAction::Issued),
        place: after,
        tx: SubmittedTx { slots: live, entry },
        submission,
        failure: SubmissionDrainFailure::zero(),
    }
}

// The clause on `count`: `Ids` is the counted array of the book, whose public count may be any.
// An id is emitted once a drain.
#[tactic(auto, unfolding(crate::specs::Plan::deliver_plan))]
pub fn deliver(
    place: SubmittedPlace,
    emitted: &Ids<16>,
    t: SubmittedTx,
    goal: SubmissionDeliveryGoal,
) -> SubmissionPlanDelta
    requires { emitted.now.count ≤ 16 }
    ensures { result ≡ deliver_plan place (id_list emitted.now) t goal }
{
    if has(emitted, t.entry.id) {
        return storing(PlanAnswer::Planned(PlanAction::Stored), place, t);
    }
    // The bound is a number and no token.
    if place.next_token.0 == u64::MAX {
        return storing(PlanAnswer::Exhausted, place, t);
    }
    issue(place, t, goal)
}
