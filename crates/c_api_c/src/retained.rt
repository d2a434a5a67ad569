// Calls on all retained submissions.
ghost use Rattle.c_api.specs.Functions.{CCall, Did, answered, back};

// Each function is one call of the C interface, whose parameters and numbers are as C has them.
#[unsafe(no_mangle)]
pub extern "C" fn submission_book_active_ids(book: &[u8], answer: &mut [u8]) -> u8
    ensures { Did book.now (CCall.ActiveIds answer.old) (answered result book.now answer.new) }
{
    c_api::retained::submission_book_active_ids(book, answer)
}

#[unsafe(no_mangle)]
pub extern "C" fn submission_book_retain_submitted(
    book: &mut [u8],
    removed: &[u64],
    answer: &mut [u8],
) -> u8
    ensures { Did book.old (CCall.RetainSubmitted removed.now answer.old) (answered result book.new answer.new) }
{
    c_api::retained::submission_book_retain_submitted(book, removed, answer)
}

#[unsafe(no_mangle)]
pub extern "C" fn submission_book_clear_local_artifacts(book: &mut [u8]) -> u8
    ensures { Did book.old CCall.ClearLocalArtifacts (back result book.new) }
{
    c_api::retained::submission_book_clear_local_artifacts(book)
}

#[unsafe(no_mangle)]
pub extern "C" fn submission_book_restore_runtime(book: &mut [u8]) -> u8
    ensures { Did book.old CCall.RestoreRuntime (back result book.new) }
{
    c_api::retained::submission_book_restore_runtime(book)
}
