// The arguments of `queue`: optional id, bundle, optional expiry, fee intent, trigger, goal.
ghost use Rattle.std.specs.Prelude.{IfSome};
ghost use Rattle.tool_script.specs.Onward.{Onward};

use crate::Read;
use crate::cells::{read_bundle, read_fee_intent};
use crate::kind::{read_goal, read_optional, read_trigger};
use book::{
    DeliveryTrigger, Height, PendingDelivery, PendingSubmissionIntent, SpendBundle,
    SubmissionDeliveryGoal, SubmissionFeeIntent, SubmissionId,
};

fn intent_of(
    id: Option<Option<SubmissionId>>,
    bundle: Option<SpendBundle>,
    expiry: Option<Option<Height>>,
    fee_intent: Option<SubmissionFeeIntent>,
) -> Option<PendingSubmissionIntent> {
    Some(PendingSubmissionIntent {
        id: id?,
        bundle: bundle?,
        expiry: expiry?,
        fee_intent: fee_intent?,
    })
}

fn delivery_of(
    intent: Option<PendingSubmissionIntent>,
    trigger: Option<DeliveryTrigger>,
    goal: Option<SubmissionDeliveryGoal>,
) -> Option<PendingDelivery> {
    Some(PendingDelivery {
        intent: intent?,
        trigger: trigger?,
        goal: goal?,
    })
}

pub fn read_delivery(s: &[u8], at: usize) -> Option<Read<Option<PendingDelivery>>>
    ensures { IfSome result (λ r. Onward s.now at r.at) }
{
    let id = read_optional(s, at, SubmissionId)?;
    let bundle = read_bundle(s, id.at)?;
    let expiry = read_optional(s, bundle.at, Height)?;
    let fee_intent = read_fee_intent(s, expiry.at)?;
    let trigger = read_trigger(s, fee_intent.at)?;
    let goal = read_goal(s, trigger.at)?;
    let intent = intent_of(id.value, bundle.value, expiry.value, fee_intent.value);
    Some(Read {
        value: delivery_of(intent, trigger.value, goal.value),
        at: goal.at,
    })
}
