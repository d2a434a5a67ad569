// Coins of the retained submissions, as a coin list in `answer`; its length in `count`. These calls only look at the book.
ghost use Rattle.c_api.specs.Functions.{CCall, Did, counted};

use c_calls_chain::{absent_outputs_for_ids, reconciliation_input_coins};

// Each function is one call of the C interface, whose parameters and numbers are as C has them.
#[tactic(auto, using(crate::specs::Functions::input_coins_did))]
pub fn submission_book_reconciliation_input_coins(
    book: &[u8],
    outputs: &[u8],
    answer: &mut [u8],
    count: &mut u64,
) -> u8
    ensures { Did book.now (CCall.ReconciliationInputCoins outputs.now answer.old count.old) (counted result book.now answer.new count.new) }
{
    reconciliation_input_coins(book, outputs, answer, count)
}

#[tactic(auto, using(crate::specs::Functions::absent_outputs_did))]
pub fn submission_book_absent_outputs_for_ids(
    book: &[u8],
    ids: &[u64],
    absent: &[u8],
    answer: &mut [u8],
    count: &mut u64,
) -> u8
    ensures { Did book.now (CCall.AbsentOutputsForIds ids.now absent.now answer.old count.old) (counted result book.now answer.new count.new) }
{
    absent_outputs_for_ids(book, ids, absent, answer, count)
}
