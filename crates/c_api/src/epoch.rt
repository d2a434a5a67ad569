// Replay epoch and retirements.
ghost use Rattle.c_api.specs.Functions.{CCall, Did, answered, back};

use c_calls_epoch::{
    begin_replay, drain_retirements, emit_retirement, finish_replay_if_advanced,
    replay_rollback_height,
};

// Each function is one call of the C interface, whose parameters and numbers are as C has them.
#[tactic(auto, using(crate::specs::Functions::begin_did))]
pub fn submission_book_begin_replay(book: &mut [u8], height: u64, answer: &mut [u8]) -> u8
    ensures { Did book.old (CCall.BeginReplay height answer.old) (answered result book.new answer.new) }
{
    begin_replay(book, height, answer)
}

#[tactic(auto, using(crate::specs::Functions::finish_did))]
pub fn submission_book_finish_replay_if_advanced(book: &mut [u8], height: u64) -> u8
    ensures { Did book.old (CCall.FinishReplayIfAdvanced height) (back result book.new) }
{
    finish_replay_if_advanced(book, height)
}

#[tactic(auto, using(crate::specs::Functions::height_did))]
pub fn submission_book_replay_rollback_height(book: &[u8], answer: &mut [u8]) -> u8
    ensures { Did book.now (CCall.ReplayRollbackHeight answer.old) (answered result book.now answer.new) }
{
    replay_rollback_height(book, answer)
}

#[tactic(auto, using(crate::specs::Functions::emit_did))]
pub fn submission_book_emit_retirement(book: &mut [u8], id: u64) -> u8
    ensures { Did book.old (CCall.EmitRetirement id) (back result book.new) }
{
    emit_retirement(book, id)
}

#[tactic(auto, using(crate::specs::Functions::retirements_did))]
pub fn submission_book_drain_retirements(book: &mut [u8], answer: &mut [u8]) -> u8
    ensures { Did book.old (CCall.DrainRetirements answer.old) (answered result book.new answer.new) }
{
    drain_retirements(book, answer)
}
