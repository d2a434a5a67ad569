// What the calls that withdraw submissions share.
#![tactic(auto)]

ghost use Rattle.std.specs.Prelude.{◌≡◌};
ghost use Rattle.book.specs.Model.{view};
ghost use Rattle.rules.specs.Steps.{run_book};
ghost use Rattle.rules.specs.Calls.Common as rules;
ghost use Rattle.part_replies.specs.Reply.{outcome_by};

use book::SubmissionId;
use book::refusal::Refusal;
use book::sound::SoundBook;
use part_change::{remove_submitted, retire};

// The submission of the id goes and is retired.
fn withdraw(b: SoundBook, id: SubmissionId) -> Result<SoundBook, Refusal>
    ensures { run_book (rules.withdraw id.0) (view b.parts) ≡ outcome_by tt result }
{
    let kept = remove_submitted(b.parts, id);
    let parts = retire(kept, id)?;
    Ok(SoundBook { parts })
}

// The book without the submissions of the ids; full where a retirement would be a 65th.
pub fn withdraw_each(b: SoundBook, ids: &[u64]) -> Result<SoundBook, Refusal>
    ensures { run_book (rules.withdraw_each ids.now) (view b.parts) ≡ outcome_by tt result }
{
    let mut out = b;
    for id in ids {
        out = withdraw(out, SubmissionId(*id))?;
    }
    Ok(out)
}
