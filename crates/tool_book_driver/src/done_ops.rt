// Calls that answer nothing.
use crate::frame::{Step, finish_done, finish_refused};
use book::refusal::Refusal;
use book::{DeliveryTrigger, Height, SubmissionId};
use part_replies::Reply;
use submission::SubmissionBook;
use tool_script::delivery::read_delivery;
use tool_script::kind::{read_flag, read_goal, read_number, read_trigger};
use tool_script::list::{as_slice, read_bytes, read_ids};

// 01
#[inline(never)]
fn queue(s: &[u8], at: usize, b: SubmissionBook) -> Option<Step> {
    let delivery = read_delivery(s, at)?;
    Some(match delivery.value {
        Some(value) => finish_done(b.queue(value), delivery.at),
        None => finish_refused(Refusal::BadValue, b, delivery.at),
    })
}

// An argument beside the lists stands for no value, but the call's own refusal of its lists comes first.
fn unfit(r: Reply<(), SubmissionBook>) -> Refusal {
    match r.answer {
        Err(Refusal::BadList) => Refusal::BadList,
        _ => Refusal::BadValue,
    }
}

// 02
#[inline(never)]
fn queue_rebroadcast_epoch(s: &[u8], at: usize, b: SubmissionBook) -> Option<Step> {
    let ids = read_ids(s, at)?;
    let trigger = read_trigger(s, ids.at)?;
    let any = trigger.value.unwrap_or(DeliveryTrigger::Protocol);
    let r = b.queue_rebroadcast_epoch(as_slice(&ids.value), any);
    Some(match trigger.value {
        Some(_) => finish_done(r, trigger.at),
        None => finish_refused(unfit(r), b, trigger.at),
    })
}

// 04
#[inline(never)]
fn queue_retained_delivery(s: &[u8], at: usize, b: SubmissionBook) -> Option<Step> {
    let id = read_number(s, at)?;
    let trigger = read_trigger(s, id.at)?;
    let goal = read_goal(s, trigger.at)?;
    Some(match (trigger.value, goal.value) {
        (Some(t), Some(g)) => {
            let r = b.queue_retained_delivery(SubmissionId(id.value), t, g);
            finish_done(r, goal.at)
        }
        _ => finish_refused(Refusal::BadValue, b, goal.at),
    })
}

// 0d and 12: a number. A match on `op`: a byte of the script is read and its call made.
#[inline(never)]
fn play_number(op: u8, s: &[u8], at: usize, b: SubmissionBook) -> Option<Step> {
    let n = read_number(s, at)?;
    let r = match op {
        0x0d => b.emit_retirement(SubmissionId(n.value)),
        _ => b.finish_replay_if_advanced(Height(n.value)),
    };
    Some(finish_done(r, n.at))
}

// 14
#[inline(never)]
fn reconcile_chain_terminality(s: &[u8], at: usize, b: SubmissionBook) -> Option<Step> {
    let observed = read_bytes(s, at)?;
    let spent = read_bytes(s, observed.at)?;
    let flag = read_flag(s, spent.at)?;
    let ids = read_ids(s, flag.at)?;
    let r = b.reconcile_chain_terminality(
        observed.value,
        spent.value,
        flag.value.unwrap_or(false),
        as_slice(&ids.value),
    );
    Some(match flag.value {
        Some(_) => finish_done(r, ids.at),
        None => finish_refused(unfit(r), b, ids.at),
    })
}

// 17
#[inline(never)]
fn collect_rollback_replay_ids(s: &[u8], at: usize, b: SubmissionBook) -> Option<Step> {
    let ids = read_ids(s, at)?;
    let r = b.collect_rollback_replay_ids(as_slice(&ids.value));
    Some(finish_done(r, ids.at))
}

// 01, 02, 04, 14 and 17 have arguments of their own, 0d and 12 a number, 03, 18 and 19 none. A match on the script's byte: an enum of
// the calls would be one match more.
#[inline(never)]
pub fn play(op: u8, s: &[u8], at: usize, b: SubmissionBook) -> Option<Step> {
    match op {
        0x01 => queue(s, at, b),
        0x02 => queue_rebroadcast_epoch(s, at, b),
        0x03 => Some(finish_done(b.queue_fee_readiness(), at)),
        0x04 => queue_retained_delivery(s, at, b),
        0x0d | 0x12 => play_number(op, s, at, b),
        0x14 => reconcile_chain_terminality(s, at, b),
        0x18 => Some(finish_done(b.clear_local_artifacts(), at)),
        0x19 => Some(finish_done(b.restore_runtime(), at)),
        _ => collect_rollback_replay_ids(s, at, b),
    }
}
