// What the chain shows.
ghost use Rattle.c_api.specs.Functions.{CCall, Did, answered, back};

// Each function is one call of the C interface, whose parameters and numbers are as C has them.
#[unsafe(no_mangle)]
pub extern "C" fn submission_book_causally_rolled_back_ids(
    book: &[u8],
    absent: &[u8],
    inputs: &[u8],
    answer: &mut [u8],
) -> u8
    ensures { Did book.now (CCall.CausallyRolledBackIds absent.now inputs.now answer.old) (answered result book.now answer.new) }
{
    c_api::chain::submission_book_causally_rolled_back_ids(book, absent, inputs, answer)
}

#[unsafe(no_mangle)]
pub extern "C" fn submission_book_reconcile_chain_terminality(
    book: &mut [u8],
    observed: &[u8],
    spent: &[u8],
    reorg: u8,
    rolled_back: &[u64],
) -> u8
    ensures { Did book.old (CCall.ReconcileChainTerminality observed.now spent.now reorg rolled_back.now) (back result book.new) }
{
    c_api::chain::submission_book_reconcile_chain_terminality(
        book,
        observed,
        spent,
        reorg,
        rolled_back,
    )
}
