// Calls that offer deliveries.
ghost use Rattle.c_api.specs.Functions.{CCall, Did, back};

// Each function is one call of the C interface, whose parameters and numbers are as C has them.
#[unsafe(no_mangle)]
pub extern "C" fn submission_book_queue_fee_readiness(book: &mut [u8]) -> u8
    ensures { Did book.old CCall.QueueFeeReadiness (back result book.new) }
{
    c_api::queue::submission_book_queue_fee_readiness(book)
}

#[unsafe(no_mangle)]
pub extern "C" fn submission_book_collect_rollback_replay_ids(book: &mut [u8], ids: &[u64]) -> u8
    ensures { Did book.old (CCall.CollectRollbackReplayIds ids.now) (back result book.new) }
{
    c_api::queue::submission_book_collect_rollback_replay_ids(book, ids)
}

// The delivery in its archive form: optional id, bundle, optional expiry, fee intent, trigger, goal.
#[unsafe(no_mangle)]
pub extern "C" fn submission_book_queue(book: &mut [u8], delivery: &[u8]) -> u8
    ensures { Did book.old (CCall.Queue delivery.now) (back result book.new) }
{
    c_api::queue::submission_book_queue(book, delivery)
}

#[unsafe(no_mangle)]
pub extern "C" fn submission_book_queue_rebroadcast_epoch(
    book: &mut [u8],
    ids: &[u64],
    trigger: u8,
) -> u8
    ensures { Did book.old (CCall.QueueRebroadcastEpoch ids.now trigger) (back result book.new) }
{
    c_api::queue::submission_book_queue_rebroadcast_epoch(book, ids, trigger)
}

#[unsafe(no_mangle)]
pub extern "C" fn submission_book_queue_retained_delivery(
    book: &mut [u8],
    id: u64,
    trigger: u8,
    goal: u8,
) -> u8
    ensures { Did book.old (CCall.QueueRetainedDelivery id trigger goal) (back result book.new) }
{
    c_api::queue::submission_book_queue_retained_delivery(book, id, trigger, goal)
}
