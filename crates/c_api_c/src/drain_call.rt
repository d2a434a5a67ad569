// The drain.
ghost use Rattle.c_api.specs.Functions.{CCall, Did, answered};

// One call of the C interface, whose parameters and numbers are as C has them.
#[unsafe(no_mangle)]
pub extern "C" fn submission_book_drain(book: &mut [u8], answer: &mut [u8]) -> u8
    ensures { Did book.old (CCall.Drain answer.old) (answered result book.new answer.new) }
{
    c_api::drain_call::submission_book_drain(book, answer)
}
