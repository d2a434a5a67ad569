// Calls by an attempt's token.
ghost use Rattle.c_api.specs.Functions.{CCall, Did, answered};

// Each function is one call of the C interface, whose parameters and numbers are as C has them.
#[unsafe(no_mangle)]
pub extern "C" fn submission_book_acknowledge_attempt(
    book: &mut [u8],
    token: u64,
    answer: &mut [u8],
) -> u8
    ensures { Did book.old (CCall.AcknowledgeAttempt token answer.old) (answered result book.new answer.new) }
{
    c_api::attempts::submission_book_acknowledge_attempt(book, token, answer)
}

#[unsafe(no_mangle)]
pub extern "C" fn submission_book_stop_attempt(book: &mut [u8], token: u64, answer: &mut [u8]) -> u8
    ensures { Did book.old (CCall.StopAttempt token answer.old) (answered result book.new answer.new) }
{
    c_api::attempts::submission_book_stop_attempt(book, token, answer)
}

#[unsafe(no_mangle)]
pub extern "C" fn submission_book_abandon_attempt(
    book: &mut [u8],
    token: u64,
    answer: &mut [u8],
) -> u8
    ensures { Did book.old (CCall.AbandonAttempt token answer.old) (answered result book.new answer.new) }
{
    c_api::attempts::submission_book_abandon_attempt(book, token, answer)
}

#[unsafe(no_mangle)]
pub extern "C" fn submission_book_relinquish_completed_attempt(
    book: &[u8],
    token: u64,
    answer: &mut [u8],
) -> u8
    ensures { Did book.now (CCall.RelinquishCompletedAttempt token answer.old) (answered result book.now answer.new) }
{
    c_api::attempts::submission_book_relinquish_completed_attempt(book, token, answer)
}

#[unsafe(no_mangle)]
pub extern "C" fn submission_book_fee_intent_for_attempt(
    book: &[u8],
    token: u64,
    answer: &mut [u8],
) -> u8
    ensures { Did book.now (CCall.FeeIntentForAttempt token answer.old) (answered result book.now answer.new) }
{
    c_api::attempts::submission_book_fee_intent_for_attempt(book, token, answer)
}

#[unsafe(no_mangle)]
pub extern "C" fn submission_book_attempt(book: &[u8], token: u64, answer: &mut [u8]) -> u8
    ensures { Did book.now (CCall.Attempt token answer.old) (answered result book.now answer.new) }
{
    c_api::attempts::submission_book_attempt(book, token, answer)
}

#[unsafe(no_mangle)]
pub extern "C" fn submission_book_finalize_attempt(
    book: &mut [u8],
    token: u64,
    source: u8,
    joined: &[u8],
    answer: &mut [u8],
) -> u8
    ensures { Did book.old (CCall.FinalizeAttempt token source joined.now answer.old) (answered result book.new answer.new) }
{
    c_api::attempts::submission_book_finalize_attempt(book, token, source, joined, answer)
}
