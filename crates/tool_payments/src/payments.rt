// The payment that a retained submission is, and the one that a new queue entry is to become.
ghost use Rattle.std.specs.Prelude.{cond, ◌≡◌};
ghost use Rattle.book.specs.Sound.{is_attach};
ghost use Rattle.tool_payments.specs.declared.PaymentFee.TheVariants.{Open, NoFee};
ghost use Rattle.tool_payments.specs.Payments.{chain_of, undecided, state_of, fee_of, retained_payment, queued_payment};

use crate::amount::amount_out;
use crate::{Payment, PaymentFee, PaymentState};
use book::{
    FeeIntentKind, PendingDelivery, SubmissionChainTerminality, SubmissionId, SubmittedEntry,
    SubmittedTx,
};
use book_sound::is_readable_bundle;
use part_submitted::entry::{current_applied_fee, current_bundle, fee_unresolved};
use part_submitted::fingerprint::current_variant_acknowledged;

fn chain_of(e: SubmittedEntry) -> SubmissionChainTerminality
    ensures { result ≡ chain_of e }
{
    let status = e.state.status;
    status.chain_terminality
}

// Paper 01: an attempt, here, and a fee bundle, in `fee_of`, is a mark with its cell beside it.
// While the chain has settled nothing.
#[tactic(auto, unfolding(crate::specs::Payments::undecided))]
fn undecided_state(t: &SubmittedTx, queued: bool) -> PaymentState
    ensures { result ≡ undecided queued t.now }
{
    let entry = t.entry;
    if current_variant_acknowledged(entry) {
        return PaymentState::Acknowledged;
    }
    if t.slots.active_attempt.present {
        return PaymentState::UnderWay;
    }
    if queued {
        return PaymentState::Queued;
    }
    PaymentState::RetainedOnly
}

#[tactic(auto, unfolding(crate::specs::Payments::state_of))]
pub fn state_of(t: &SubmittedTx, queued: bool) -> PaymentState
    ensures { result ≡ state_of queued t.now }
{
    let entry = t.entry;
    let chain = chain_of(entry);
    match chain {
        SubmissionChainTerminality::Active => undecided_state(t, queued),
        SubmissionChainTerminality::InputSpent => PaymentState::HasInputSpent,
        SubmissionChainTerminality::Landed => PaymentState::HasLanded,
    }
}

// A fee bundle has its fee applied; without one the fee is still asked for, or there is none.
#[tactic(auto, unfolding(crate::specs::Payments::fee_of))]
pub fn fee_of(e: SubmittedEntry) -> PaymentFee
    ensures { result ≡ fee_of e }
{
    if e.state.current_variant.fee_bearing {
        return PaymentFee::Applied(current_applied_fee(e));
    }
    if fee_unresolved(e) {
        return PaymentFee::Open;
    }
    PaymentFee::NoFee
}

// A retained submission, and whether a delivery of it is queued.
#[tactic(auto, unfolding(crate::specs::Payments::retained_payment))]
pub fn retained_payment(t: &SubmittedTx, queued: bool) -> Payment
    ensures { result ≡ retained_payment queued t.now }
{
    let entry = t.entry;
    let id = entry.id;
    let bundle = current_bundle(entry);
    Payment {
        id: Some(id),
        amount: amount_out(bundle),
        readable: is_readable_bundle(&bundle),
        state: state_of(t, queued),
        fee: fee_of(entry),
    }
}

fn asked_fee(k: FeeIntentKind) -> PaymentFee
    ensures { result ≡ cond (is_attach k) Open NoFee }
{
    match k {
        FeeIntentKind::AlreadyPaid | FeeIntentKind::NoFeeConfigured => PaymentFee::NoFee,
        FeeIntentKind::Attach => PaymentFee::Open,
    }
}

// A queue entry that is a payment of its own.
#[tactic(auto, unfolding(crate::specs::Payments::queued_payment))]
pub fn queued_payment(d: &PendingDelivery) -> Payment
    ensures { result ≡ queued_payment d.now }
{
    let intent = d.intent;
    let id = intent.id;
    let bundle = intent.bundle;
    let fee = intent.fee_intent;
    let kind = fee.kind;
    Payment {
        id,
        amount: amount_out(bundle),
        readable: is_readable_bundle(&bundle),
        state: PaymentState::Queued,
        fee: asked_fee(kind),
    }
}
