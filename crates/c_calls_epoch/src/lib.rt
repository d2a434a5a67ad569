// Replay epoch, retirements, and calls on all retained submissions, on the book in lent bytes: read, called, settled.
#![tactic(auto)]

ghost use Rattle.std.specs.Prelude.{[]};
ghost use Rattle.rules.specs.Calls.ActiveIds.{active_ids};
ghost use Rattle.rules.specs.Calls.ClearLocalArtifacts.{clear_local_artifacts};
ghost use Rattle.rules.specs.Calls.DrainRetirements.{drain_retirements};
ghost use Rattle.rules.specs.Calls.EmitRetirement.{emit_retirement};
ghost use Rattle.rules.specs.Calls.Replay.{begin_replay, finish_replay_if_advanced, replay_rollback_height};
ghost use Rattle.rules.specs.Calls.RestoreRuntime.{restore_runtime};
ghost use Rattle.rules.specs.Calls.RetainSubmitted.{retain_submitted};
ghost use Rattle.c_boundary.specs.Settle.{boundary, Gives, GivesBook};
ghost use Rattle.c_boundary.specs.Forms.{no_form, flag_form, height_form, ids_form};

use book::refusal::Refusal;
use book::sound::SoundBook;
use book::{Height, SubmissionId};
use c_read::held;
use c_replies::{settle_flag, settle_ids, tell_height, tell_ids};
use c_write::settle_done;
use call_active_ids::active_ids_sound;
use call_begin_replay::begin_replay_sound;
use call_clear_local_artifacts::clear_local_artifacts_sound;
use call_drain_retirements::drain_retirements_sound;
use call_emit_retirement::emit_retirement_sound;
use call_finish_replay_if_advanced::finish_replay_if_advanced_sound;
use call_replay_rollback_height::replay_rollback_height_sound;
use call_restore_runtime::restore_runtime_sound;
use call_retain_submitted::retain_submitted_sound;

// Each function is one call of the C interface: its parameters, and a refusal as a number, are what that has.
// Each reads the book and tests `ok` itself: a function that hands the book on would cost the call a copy of it.
pub fn begin_replay(book: &mut [u8], height: u64, answer: &mut [u8]) -> u8
    ensures { Gives (boundary flag_form (begin_replay (record { 0 = height })) book.old answer.old) result book.new answer.new }
{
    let h = held(&*book);
    if !h.ok {
        return Refusal::NoBook as u8;
    }
    let r = begin_replay_sound(SoundBook { parts: h.book }, Height(height));
    settle_flag(r, book, answer)
}

pub fn finish_replay_if_advanced(book: &mut [u8], height: u64) -> u8
    ensures { GivesBook (boundary no_form (finish_replay_if_advanced (record { 0 = height })) book.old []) result book.new }
{
    let h = held(&*book);
    if !h.ok {
        return Refusal::NoBook as u8;
    }
    let r = finish_replay_if_advanced_sound(SoundBook { parts: h.book }, Height(height));
    settle_done(r, book)
}

pub fn replay_rollback_height(book: &[u8], answer: &mut [u8]) -> u8
    ensures { Gives (boundary height_form replay_rollback_height book.now answer.old) result book.now answer.new }
{
    let h = held(book);
    if !h.ok {
        return Refusal::NoBook as u8;
    }
    let r = replay_rollback_height_sound(SoundBook { parts: h.book });
    tell_height(&r.answer, answer)
}

pub fn emit_retirement(book: &mut [u8], id: u64) -> u8
    ensures { GivesBook (boundary no_form (emit_retirement id) book.old []) result book.new }
{
    let h = held(&*book);
    if !h.ok {
        return Refusal::NoBook as u8;
    }
    let r = emit_retirement_sound(SoundBook { parts: h.book }, SubmissionId(id));
    settle_done(r, book)
}

pub fn drain_retirements(book: &mut [u8], answer: &mut [u8]) -> u8
    ensures { Gives (boundary ids_form drain_retirements book.old answer.old) result book.new answer.new }
{
    let h = held(&*book);
    if !h.ok {
        return Refusal::NoBook as u8;
    }
    let r = drain_retirements_sound(SoundBook { parts: h.book });
    settle_ids(r, book, answer)
}

pub fn active_ids(book: &[u8], answer: &mut [u8]) -> u8
    ensures { Gives (boundary ids_form active_ids book.now answer.old) result book.now answer.new }
{
    let h = held(book);
    if !h.ok {
        return Refusal::NoBook as u8;
    }
    let r = active_ids_sound(SoundBook { parts: h.book });
    // Out of the reply, so that its book isn't made.
    let said = r.answer;
    tell_ids(&said, answer)
}

pub fn retain_submitted(book: &mut [u8], removed: &[u64], answer: &mut [u8]) -> u8
    ensures { Gives (boundary ids_form (retain_submitted removed.now) book.old answer.old) result book.new answer.new }
{
    let h = held(&*book);
    if !h.ok {
        return Refusal::NoBook as u8;
    }
    let r = retain_submitted_sound(SoundBook { parts: h.book }, removed);
    settle_ids(r, book, answer)
}

pub fn clear_local_artifacts(book: &mut [u8]) -> u8
    ensures { GivesBook (boundary no_form clear_local_artifacts book.old []) result book.new }
{
    let h = held(&*book);
    if !h.ok {
        return Refusal::NoBook as u8;
    }
    let r = clear_local_artifacts_sound(SoundBook { parts: h.book });
    settle_done(r, book)
}

pub fn restore_runtime(book: &mut [u8]) -> u8
    ensures { GivesBook (boundary no_form restore_runtime book.old []) result book.new }
{
    let h = held(&*book);
    if !h.ok {
        return Refusal::NoBook as u8;
    }
    let r = restore_runtime_sound(SoundBook { parts: h.book });
    settle_done(r, book)
}
