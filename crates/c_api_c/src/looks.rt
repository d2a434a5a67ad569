// Looks at one submission, and at the book in numbers.
ghost use Rattle.c_api.specs.Functions.{CCall, Did, answered};

// Each function is one call of the C interface, whose parameters and numbers are as C has them.
#[unsafe(no_mangle)]
pub extern "C" fn submission_book_look(book: &[u8], id: u64, answer: &mut [u8]) -> u8
    ensures { Did book.now (CCall.Look id answer.old) (answered result book.now answer.new) }
{
    c_api::looks::submission_book_look(book, id, answer)
}

#[unsafe(no_mangle)]
pub extern "C" fn submission_book_summary(book: &[u8], answer: &mut [u8]) -> u8
    ensures { Did book.now (CCall.Summary answer.old) (answered result book.now answer.new) }
{
    c_api::looks::submission_book_summary(book, answer)
}
