// The drain.
ghost use Rattle.c_api.specs.Functions.{CCall, Did, answered};

use c_calls_queue::drain;

// One call of the C interface, whose parameters and numbers are as C has them.
#[tactic(auto, using(crate::specs::Functions::drain_did))]
pub fn submission_book_drain(book: &mut [u8], answer: &mut [u8]) -> u8
    ensures { Did book.old (CCall.Drain answer.old) (answered result book.new answer.new) }
{
    drain(book, answer)
}
