// Calls that offer deliveries, and the drain, on the book in lent bytes: read, called, settled. A refused call leaves every lent byte.
#![tactic(auto)]

ghost use Rattle.std.specs.Prelude.{◌≡◌, []};
ghost use Rattle.rules.specs.Calls.CollectRollbackReplayIds.{collect_rollback_replay_ids};
ghost use Rattle.rules.specs.Calls.Drain.{drain};
ghost use Rattle.rules.specs.Calls.QueueFeeReadiness.{queue_fee_readiness};
ghost use Rattle.archive_form.specs.Parse.{parse_trigger, parse_goal};
ghost use Rattle.c_boundary.specs.Arguments.{byte_as};
ghost use Rattle.c_boundary.specs.Settle.{boundary, Gives, GivesBook};
ghost use Rattle.c_boundary.specs.Forms.{no_form, drain_form};
ghost use Rattle.c_calls_queue.specs.Deliveries.{queueing, delivering, rebroadcasting};

use archive_bundle_read::kind::{read_goal, read_trigger};
use archive_entry_read::delivery::read_delivery;
use book::refusal::Refusal;
use book::sound::SoundBook;
use book::{DeliveryTrigger, SubmissionDeliveryGoal, SubmissionId};
use c_read::held;
use c_replies::settle_drain;
use c_write::settle_done;
use call_collect_rollback_replay_ids::collect_rollback_replay_ids_sound;
use call_drain::drain_sound;
use call_queue::queue_sound;
use call_queue_fee_readiness::queue_fee_readiness_sound;
use call_queue_rebroadcast_epoch::queue_rebroadcast_epoch_sound;
use call_queue_retained_delivery::queue_retained_delivery_sound;
use codec_cursor::FAR;

// Each function is one call of the C interface: its parameters, and a refusal as a number, are what that has.
// Each reads the book and tests `ok` itself: a function that hands the book on would cost the call a copy of it.
pub fn queue_fee_readiness(book: &mut [u8]) -> u8
    ensures { GivesBook (boundary no_form queue_fee_readiness book.old []) result book.new }
{
    let h = held(&*book);
    if !h.ok {
        return Refusal::NoBook as u8;
    }
    let r = queue_fee_readiness_sound(SoundBook { parts: h.book });
    settle_done(r, book)
}

pub fn collect_rollback_replay_ids(book: &mut [u8], ids: &[u64]) -> u8
    ensures { GivesBook (boundary no_form (collect_rollback_replay_ids ids.now) book.old []) result book.new }
{
    let h = held(&*book);
    if !h.ok {
        return Refusal::NoBook as u8;
    }
    let r = collect_rollback_replay_ids_sound(SoundBook { parts: h.book }, ids);
    settle_done(r, book)
}

// The delivery in its archive form: optional id, bundle, optional expiry, fee intent, trigger, goal.
pub fn queue(book: &mut [u8], delivery: &[u8]) -> u8
    ensures { GivesBook (boundary no_form (queueing delivery.now) book.old []) result book.new }
{
    let h = held(&*book);
    if !h.ok {
        return Refusal::NoBook as u8;
    }
    let mut end: usize = 0;
    let d = read_delivery(delivery, &mut end);
    if FAR <= end {
        return Refusal::BadValue as u8;
    }
    if end < delivery.len() {
        return Refusal::BadValue as u8;
    }
    let r = queue_sound(SoundBook { parts: h.book }, d);
    settle_done(r, book)
}

// A kind of one byte, as the archive has it.
fn trigger_in(n: u8) -> Option<DeliveryTrigger>
    ensures { result ≡ byte_as parse_trigger n }
{
    let mut end: usize = 0;
    let t = read_trigger(&[n], &mut end);
    (end < FAR).then_some(t)
}

fn goal_in(n: u8) -> Option<SubmissionDeliveryGoal>
    ensures { result ≡ byte_as parse_goal n }
{
    let mut end: usize = 0;
    let g = read_goal(&[n], &mut end);
    (end < FAR).then_some(g)
}

pub fn queue_rebroadcast_epoch(book: &mut [u8], ids: &[u64], trigger: u8) -> u8
    ensures { GivesBook (boundary no_form (rebroadcasting ids.now trigger) book.old []) result book.new }
{
    let h = held(&*book);
    if !h.ok {
        return Refusal::NoBook as u8;
    }
    if 64 < ids.len() {
        return Refusal::BadList as u8;
    }
    let Some(t) = trigger_in(trigger) else {
        return Refusal::BadValue as u8;
    };
    let r = queue_rebroadcast_epoch_sound(SoundBook { parts: h.book }, ids, t);
    settle_done(r, book)
}

pub fn queue_retained_delivery(book: &mut [u8], id: u64, trigger: u8, goal: u8) -> u8
    ensures { GivesBook (boundary no_form (delivering id trigger goal) book.old []) result book.new }
{
    let h = held(&*book);
    if !h.ok {
        return Refusal::NoBook as u8;
    }
    let Some(t) = trigger_in(trigger) else {
        return Refusal::BadValue as u8;
    };
    let Some(g) = goal_in(goal) else {
        return Refusal::BadValue as u8;
    };
    let r = queue_retained_delivery_sound(SoundBook { parts: h.book }, SubmissionId(id), t, g);
    settle_done(r, book)
}

pub fn drain(book: &mut [u8], answer: &mut [u8]) -> u8
    ensures { Gives (boundary drain_form drain book.old answer.old) result book.new answer.new }
{
    let h = held(&*book);
    if !h.ok {
        return Refusal::NoBook as u8;
    }
    let r = drain_sound(SoundBook { parts: h.book });
    settle_drain(r, book, answer)
}
