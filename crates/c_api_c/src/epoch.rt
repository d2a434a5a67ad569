// Replay epoch and retirements.
ghost use Rattle.c_api.specs.Functions.{CCall, Did, answered, back};

// Each function is one call of the C interface, whose parameters and numbers are as C has them.
#[unsafe(no_mangle)]
pub extern "C" fn submission_book_begin_replay(
    book: &mut [u8],
    height: u64,
    answer: &mut [u8],
) -> u8
    ensures { Did book.old (CCall.BeginReplay height answer.old) (answered result book.new answer.new) }
{
    c_api::epoch::submission_book_begin_replay(book, height, answer)
}

#[unsafe(no_mangle)]
pub extern "C" fn submission_book_finish_replay_if_advanced(book: &mut [u8], height: u64) -> u8
    ensures { Did book.old (CCall.FinishReplayIfAdvanced height) (back result book.new) }
{
    c_api::epoch::submission_book_finish_replay_if_advanced(book, height)
}

#[unsafe(no_mangle)]
pub extern "C" fn submission_book_replay_rollback_height(book: &[u8], answer: &mut [u8]) -> u8
    ensures { Did book.now (CCall.ReplayRollbackHeight answer.old) (answered result book.now answer.new) }
{
    c_api::epoch::submission_book_replay_rollback_height(book, answer)
}

#[unsafe(no_mangle)]
pub extern "C" fn submission_book_emit_retirement(book: &mut [u8], id: u64) -> u8
    ensures { Did book.old (CCall.EmitRetirement id) (back result book.new) }
{
    c_api::epoch::submission_book_emit_retirement(book, id)
}

#[unsafe(no_mangle)]
pub extern "C" fn submission_book_drain_retirements(book: &mut [u8], answer: &mut [u8]) -> u8
    ensures { Did book.old (CCall.DrainRetirements answer.old) (answered result book.new answer.new) }
{
    c_api::epoch::submission_book_drain_retirements(book, answer)
}
