// Looks at one submission, and at the book in numbers.
ghost use Rattle.c_api.specs.Functions.{CCall, Did, answered};

use c_calls_chain::{look, summary};

// Each function is one call of the C interface, whose parameters and numbers are as C has them.
#[tactic(auto, using(crate::specs::Functions::look_did))]
pub fn submission_book_look(book: &[u8], id: u64, answer: &mut [u8]) -> u8
    ensures { Did book.now (CCall.Look id answer.old) (answered result book.now answer.new) }
{
    look(book, id, answer)
}

#[tactic(auto, using(crate::specs::Functions::summary_did))]
pub fn submission_book_summary(book: &[u8], answer: &mut [u8]) -> u8
    ensures { Did book.now (CCall.Summary answer.old) (answered result book.now answer.new) }
{
    summary(book, answer)
}
