// Opening a book.
#![tactic(auto)]

ghost use Rattle.std.specs.Prelude.{◌≡◌};
ghost use Rattle.book.specs.Model.{back};
ghost use Rattle.rules.specs.Opened.{opened};

use book::{BookData, Height, Ids, PendingDelivery, ReplayEpoch, SubmissionId, SubmittedTx, Token};

// The book with these two numbers and everything else empty; never refused.
#[tactic(auto, unfolding(rules::specs::Opened::opened, book::specs::Model::back))]
pub fn open(token: Token, id: SubmissionId) -> BookData
    ensures { result ≡ back (opened token.0 id.0) }
{
    BookData {
        next_delivery_attempt_token: token,
        next_submission_id: id,
        submitted_count: 0,
        submitted: [SubmittedTx::zero(); 16],
        pending_count: 0,
        pending_deliveries: [PendingDelivery::zero(); 16],
        retired_submission_ids: Ids {
            count: 0,
            items: [0; 64],
        },
        replay_epoch: ReplayEpoch {
            rollback_height: None,
            replayed_submission_ids: Ids {
                count: 0,
                items: [0; 16],
            },
        },
    }
}
