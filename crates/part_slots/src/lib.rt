// The two attempt slots of a submission: what issuing, setting aside and finalising make of them.
#![tactic(auto)]

ghost use Rattle.std.specs.Prelude.{◌≡◌};
ghost use Rattle.rules.specs.Steps.Slots.{present, issue_attempt, taken as taken_of, slots_issued, slots_aside, slots_final, resolved, relationship_to};
ghost use Rattle.rules.specs.Calls.Common.{has_token};

use book::{
    AttemptSlots, DeliveryAttempt, OptionalAttempt, OptionalHash, SubmissionDeliveryGoal, Token,
};
use book_answers::SubmissionAttemptRelationship;

// Paper 01: an optional attempt or digest is a mark with its cell beside it; here and below `present` is asked.
// A slot with an attempt in it.
pub fn filled(a: DeliveryAttempt) -> OptionalAttempt
    ensures { result ≡ present a }
{
    OptionalAttempt {
        present: true,
        attempt: a,
    }
}

// The live attempt, if any, is set aside.
#[tactic(auto, unfolding(rules::specs::Steps::Slots::slots_aside))]
pub fn stopped(s: AttemptSlots) -> AttemptSlots
    ensures { result ≡ slots_aside s }
{
    if s.active_attempt.present {
        return AttemptSlots {
            active_attempt: OptionalAttempt::zero(),
            completed_attempt: s.active_attempt,
        };
    }
    s
}

// What issuing takes as predecessor: the live attempt, else the one set aside.
#[tactic(auto, unfolding(rules::specs::Steps::Slots::taken))]
pub fn taken(s: AttemptSlots) -> OptionalAttempt
    ensures { result ≡ taken_of s }
{
    if s.active_attempt.present {
        s.active_attempt
    } else {
        s.completed_attempt
    }
}

#[tactic(auto, unfolding(rules::specs::Steps::Slots::issue_attempt))]
pub fn new_attempt(
    token: Token,
    goal: SubmissionDeliveryGoal,
    fingerprint: [u8; 32],
) -> DeliveryAttempt
    ensures { result ≡ issue_attempt token.0 goal fingerprint }
{
    DeliveryAttempt {
        token,
        goal,
        drained_variant_fingerprint: fingerprint,
        finalized_variant_fingerprint: OptionalHash::zero(),
    }
}

// The slot that issuing took is emptied, and the new attempt is the live one.
#[tactic(auto, unfolding(rules::specs::Steps::Slots::slots_issued))]
pub fn issued(
    s: AttemptSlots,
    token: Token,
    goal: SubmissionDeliveryGoal,
    fingerprint: [u8; 32],
) -> AttemptSlots
    ensures { result ≡ slots_issued (issue_attempt token.0 goal fingerprint) s }
{
    let live = filled(new_attempt(token, goal, fingerprint));
    if s.active_attempt.present {
        return AttemptSlots {
            active_attempt: live,
            completed_attempt: s.completed_attempt,
        };
    }
    AttemptSlots {
        active_attempt: live,
        completed_attempt: OptionalAttempt::zero(),
    }
}

// The live attempt, if any, gets its final fingerprint.
#[tactic(auto, unfolding(rules::specs::Steps::Slots::slots_final))]
pub fn finalized(s: AttemptSlots, fingerprint: [u8; 32]) -> AttemptSlots
    ensures { result ≡ slots_final fingerprint s }
{
    if s.active_attempt.present {
        let mut a = s.active_attempt.attempt;
        a.finalized_variant_fingerprint = OptionalHash {
            present: true,
            hash: fingerprint,
        };
        return AttemptSlots {
            active_attempt: filled(a),
            completed_attempt: s.completed_attempt,
        };
    }
    s
}

#[tactic(auto, unfolding(rules::specs::Steps::Slots::resolved))]
pub fn resolved_variant_fingerprint(a: DeliveryAttempt) -> [u8; 32]
    ensures { result ≡ resolved a }
{
    if a.finalized_variant_fingerprint.present {
        a.finalized_variant_fingerprint.hash
    } else {
        a.drained_variant_fingerprint
    }
}

// The relationship of an attempt with this goal and fingerprint to its predecessor p.
#[tactic(auto, unfolding(rules::specs::Steps::Slots::relationship_to))]
pub fn relationship(
    p: OptionalAttempt,
    goal: SubmissionDeliveryGoal,
    fingerprint: [u8; 32],
) -> SubmissionAttemptRelationship
    ensures { result ≡ relationship_to p goal fingerprint }
{
    if p.present {
        return match goal {
            SubmissionDeliveryGoal::FeeUpgrade => SubmissionAttemptRelationship::NewerFeeBearing,
            SubmissionDeliveryGoal::EnsureBroadcast => {
                if resolved_variant_fingerprint(p.attempt) == fingerprint {
                    SubmissionAttemptRelationship::Exact
                } else {
                    SubmissionAttemptRelationship::Other
                }
            }
        };
    }
    SubmissionAttemptRelationship::Initial
}

// The slot has an attempt, and the token is its own.
pub fn holds_token(a: OptionalAttempt, t: Token) -> bool
    ensures { result ≡ has_token t.0 a }
{
    a.present && a.attempt.token == t
}

// The same as `stopped`, of the slots behind a borrow: these two slots and nothing else.
pub fn stop_in_place(s: &mut AttemptSlots)
    ensures { s.new ≡ slots_aside s.old }
{
    *s = stopped(*s);
}
