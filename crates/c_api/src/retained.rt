// Calls on all retained submissions.
ghost use Rattle.c_api.specs.Functions.{CCall, Did, answered, back};

use c_calls_epoch::{active_ids, clear_local_artifacts, restore_runtime, retain_submitted};

// Each function is one call of the C interface, whose parameters and numbers are as C has them.
#[tactic(auto, using(crate::specs::Functions::active_ids_did))]
pub fn submission_book_active_ids(book: &[u8], answer: &mut [u8]) -> u8
    ensures { Did book.now (CCall.ActiveIds answer.old) (answered result book.now answer.new) }
{
    active_ids(book, answer)
}

#[tactic(auto, using(crate::specs::Functions::retain_did))]
pub fn submission_book_retain_submitted(book: &mut [u8], removed: &[u64], answer: &mut [u8]) -> u8
    ensures { Did book.old (CCall.RetainSubmitted removed.now answer.old) (answered result book.new answer.new) }
{
    retain_submitted(book, removed, answer)
}

#[tactic(auto, using(crate::specs::Functions::clear_did))]
pub fn submission_book_clear_local_artifacts(book: &mut [u8]) -> u8
    ensures { Did book.old CCall.ClearLocalArtifacts (back result book.new) }
{
    clear_local_artifacts(book)
}

#[tactic(auto, using(crate::specs::Functions::restore_did))]
pub fn submission_book_restore_runtime(book: &mut [u8]) -> u8
    ensures { Did book.old CCall.RestoreRuntime (back result book.new) }
{
    restore_runtime(book)
}
