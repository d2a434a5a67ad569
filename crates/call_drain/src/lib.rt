// `drain`: the queue is emptied, and its candidates are planned and carried out in order.
#![tactic(auto)]

ghost use Rattle.std.specs.Prelude.{◌≡◌, [], map, ◌≤◌, ◌<◌, length, get_or};
ghost use Rattle.base_lists.specs.Lists.{push_new};
ghost use Rattle.book.specs.Zero.{zero_submitted};
ghost use Rattle.book.specs.Model.{view, back, id_list};
ghost use Rattle.book.specs.Sound.{id_of};
ghost use Rattle.rules.specs.Parts.{intent_of};
ghost use Rattle.rules.specs.Rule.{retire as retired};
ghost use Rattle.rules.specs.Steps.{remove_book, note_book, run_book};
ghost use Rattle.rules.specs.Calls.Plan.{blank};
ghost use Rattle.rules.specs.Calls.Drain.{is_one_of, drain as drainRules};
ghost use Rattle.part_drain_answers.specs.DrainReply.{drain_reply};
ghost use Rattle.part_lookup.specs.Normal.{Normal};
ghost use Rattle.part_plan.specs.Plan.{known_plan, unknown_plan};
ghost use Rattle.call_drain.specs.Planned.{place_on, unnamed_plan, candidate_plan};
ghost use Rattle.call_drain.specs.PlannedLaws.{place_in};
ghost use Rattle.call_drain.specs.Carried.{FitsBy, carried_by, stored_in};
ghost use Rattle.call_drain.specs.Answers.{answers_of, with_submission, with_failed, with_removal, answers_by, Room};

use book::refusal::Refusal;
use book::sound::SoundBook;
use book::{BookData, Ids, PendingDelivery, SubmissionId};
use book_answers::{DrainFailureCause, DrainedSubmission, SubmissionDrainFailure};
use part_change::{clear_pending, remove_submitted, retire};
use part_drain_answers::Drained;
use part_ids::{empty, has, push};
use part_lookup::{position_of, position_of_intent, submitted_at, submitted_ids};
use part_plan::{PlanAction, PlanAnswer, SubmissionPlanDelta, SubmittedPlace, failing, fails};
use part_plan_candidate::{known, unknown};
use part_replies::{Reply, done, refused};
use part_submitted::fingerprint::intent_of;

// What a drain has done so far: the ids that it emitted and removed, and what it hands out.
#[derive(Clone, Copy)]
pub struct DrainAnswers {
    pub emitted: Ids<16>,
    pub removed: Ids<16>,
    pub drained: Drained,
}

// ---- the answers in counted cells (no heap). `Room` stands in contracts and not in the struct: behind the sixteenth candidate there is none.
fn no_answers() -> DrainAnswers
    ensures { result ≡ answers_of [] blank }
{
    DrainAnswers {
        emitted: empty(),
        removed: empty(),
        drained: Drained {
            submission_count: 0,
            submissions: [DrainedSubmission::zero(); 16],
            failure_count: 0,
            failures: [SubmissionDrainFailure::zero(); 16],
        },
    }
}

fn add_submission(a: &mut DrainAnswers, id: SubmissionId, x: DrainedSubmission)
    requires { Room a.old }
    ensures { a.new ≡ with_submission id x a.old }
{
    push(&mut a.emitted, id);
    let n = a.drained.submission_count;
    a.drained.submissions[n] = x;
    a.drained.submission_count = n + 1;
}

fn add_failure(a: &mut DrainAnswers, f: SubmissionDrainFailure)
    requires { Room a.old }
    ensures { a.new ≡ with_failed f a.old }
{
    let n = a.drained.failure_count;
    a.drained.failures[n] = f;
    a.drained.failure_count = n + 1;
}

fn add_removal(a: &mut DrainAnswers, f: SubmissionDrainFailure)
    requires { Room a.old }
    ensures { a.new ≡ with_removal f a.old }
{
    add_failure(&mut *a, f);
    push(&mut a.removed, f.candidate_id);
}

fn add_answer(a: &mut DrainAnswers, action: PlanAction, p: &SubmissionPlanDelta)
    requires { Room a.old }
    ensures { a.new ≡ answers_by action p.now a.old }
{
    match action {
        PlanAction::Passed | PlanAction::Stored => {}
        PlanAction::Failed => add_failure(a, p.failure),
        PlanAction::Removed => add_removal(a, p.failure),
        PlanAction::Issued => add_submission(a, p.tx.entry.id, p.submission),
    }
}

// ---- the book. It is changed in place: it is too large to be handed to a function and back for each candidate.
// `Normal b`, here and below: between two changes of a call a book is normal but not known to be sound, and wrapping a lent one copies it.
// The submission goes with its queue entries and its replay mark, and is retired; for that there is room.
fn withdraw(b: &mut BookData, id: SubmissionId)
    requires { Normal b.old × (length (push_new (view b.old).retired id.0) ≤ 64) }
    ensures { b.new ≡ back (note_book (retired id.0) (remove_book id.0 (view b.old))) }
{
    let kept = remove_submitted(*b, id);
    let Ok(next) = retire(kept, id) else {
        return;
    };
    *b = next;
}

// The submission of the plan in its place, and the numbers with it.
fn store(b: &mut BookData, p: &SubmissionPlanDelta)
    requires { (p.now.place.index < 16) × (length b.old.submitted ≡ 16) }
    ensures { b.new ≡ stored_in p.now b.old }
{
    let k = p.place.index;
    b.submitted[k] = p.tx;
    b.submitted_count = p.place.count;
    b.next_submission_id = p.place.next_id;
    b.next_delivery_attempt_token = p.place.next_token;
}

fn carry_out(b: &mut BookData, action: PlanAction, p: &SubmissionPlanDelta)
    requires { Normal b.old × FitsBy action p.now (view b.old) }
    ensures { b.new ≡ carried_by action p.now b.old }
{
    match action {
        PlanAction::Passed | PlanAction::Failed => {}
        PlanAction::Removed => withdraw(b, p.failure.candidate_id),
        PlanAction::Stored | PlanAction::Issued => store(b, p),
    }
}

// ---- the plan of a candidate
// The clauses on `count`, here and below: `Ids` is the counted array of the book, whose public count may be any.
fn is_one_of(o: Option<SubmissionId>, ids: &Ids<16>) -> bool
    requires { ids.now.count ≤ 16 }
    ensures { result ≡ is_one_of o (id_list ids.now) }
{
    let Some(id) = o else {
        return false;
    };
    has(ids, id)
}

// The place at k, with the numbers of the book.
fn place_in(b: &BookData, k: usize) -> SubmittedPlace
    ensures { result ≡ place_in k b.now }
{
    SubmittedPlace {
        index: k,
        count: b.submitted_count,
        next_id: b.next_submission_id,
        next_token: b.next_delivery_attempt_token,
    }
}

// A place is one of this book only: a struct of both would lend or copy the book.
// The candidate at n, of fingerprint f, is for the submission at k.
fn plan_known(
    b: &BookData,
    emitted: &Ids<16>,
    n: usize,
    c: &PendingDelivery,
    f: [u8; 32],
    k: usize,
) -> SubmissionPlanDelta
    requires { Normal b.now × (emitted.now.count ≤ 16) × (k < length (view b.now).submitted) }
    ensures { result ≡ known_plan (place_on k (view b.now)) (id_list emitted.now) (view b.now).retired n c.now f (get_or (view b.now).submitted k zero_submitted) }
{
    let t = submitted_at(b, k);
    known(
        place_in(b, k),
        emitted,
        &b.retired_submission_ids,
        n,
        c,
        f,
        t,
    )
}

// The candidate at n, of fingerprint f, is for none.
fn plan_unknown(
    b: &BookData,
    emitted: &Ids<16>,
    n: usize,
    c: &PendingDelivery,
    f: [u8; 32],
) -> SubmissionPlanDelta
    requires { Normal b.now × (emitted.now.count ≤ 16) × (f ≡ intent_of c.now.intent) }
    ensures { result ≡ unknown_plan (place_on (length (view b.now).submitted) (view b.now)) (id_list emitted.now) (map id_of (view b.now).submitted) n c.now f }
{
    let ids = submitted_ids(b);
    unknown(place_in(b, b.submitted_count), emitted, &ids, n, c, f)
}

// The first retained of equal intent fingerprint.
fn plan_unnamed(
    b: &BookData,
    emitted: &Ids<16>,
    n: usize,
    c: &PendingDelivery,
    f: [u8; 32],
) -> SubmissionPlanDelta
    requires { Normal b.now × (emitted.now.count ≤ 16) × (f ≡ intent_of c.now.intent) }
    ensures { result ≡ unnamed_plan (view b.now) (id_list emitted.now) n c.now f }
{
    let place = position_of_intent(b, &f);
    let Some(k) = place else {
        return plan_unknown(b, emitted, n, c, f);
    };
    plan_known(b, emitted, n, c, f, k)
}

// `plan_pending_submission` of the candidate at n. Its intent is hashed once.
fn plan_pending_submission(
    b: &BookData,
    emitted: &Ids<16>,
    removed: &Ids<16>,
    n: usize,
    c: &PendingDelivery,
) -> SubmissionPlanDelta
    requires { Normal b.now × (emitted.now.count ≤ 16) × (removed.now.count ≤ 16) }
    ensures { result ≡ candidate_plan (view b.now) (id_list emitted.now) (id_list removed.now) n c.now }
{
    let of = c.intent.id;
    if is_one_of(of, removed) {
        return failing(
            PlanAnswer::Planned(PlanAction::Passed),
            SubmissionDrainFailure::zero(),
        );
    }
    let f = intent_of(c.intent);
    let Some(id) = of else {
        return plan_unnamed(b, emitted, n, c, f);
    };
    let place = position_of(b, id);
    let Some(k) = place else {
        return fails(n, DrainFailureCause::NoRetainedState, id, f);
    };
    plan_known(b, emitted, n, c, f, k)
}

// ---- the drain
// A drain of a sound book. A refusal 10 leaves the book as it was; 11 leaves what was done, with the queue empty.
pub fn drain_sound(b: SoundBook) -> Reply<Drained, BookData>
    ensures { result ≡ drain_reply b.parts (run_book drainRules (view b.parts)) }
{
    let mut book = clear_pending(b.parts);
    let mut answers = no_answers();
    for i in 0..b.parts.pending_count {
        let c = b.parts.pending_deliveries[i];
        let p = plan_pending_submission(&book, &answers.emitted, &answers.removed, i, &c);
        match p.answer {
            PlanAnswer::Full => {
                return refused(b.parts, Refusal::Full);
            }
            PlanAnswer::Exhausted => {
                store(&mut book, &p);
                return refused(book, Refusal::NoToken);
            }
            PlanAnswer::Planned(action) => {
                add_answer(&mut answers, action, &p);
                carry_out(&mut book, action, &p);
            }
        }
    }
    done(book, answers.drained)
}
