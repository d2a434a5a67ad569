// `retain_submitted`: the submissions whose ids are named are withdrawn, and their ids answered, rising.
#![tactic(auto)]

ghost use Rattle.std.specs.Prelude.{◌≡◌};
ghost use Rattle.book.specs.Model.{view, id_cells};
ghost use Rattle.rules.specs.Steps.{run_book};
ghost use Rattle.rules.specs.Calls.RetainSubmitted.{to_remove, retain_submitted};
ghost use Rattle.part_replies.specs.Reply.{ids_reply};

use book::refusal::Refusal;
use book::sound::SoundBook;
use book::{BookData, Ids};
use part_ids::{among, items, rising, widened};
use part_lookup::submitted_ids;
use part_replies::{Reply, refused, settled};
use part_withdraw::withdraw_each;

// The ids of the submissions that are among those of a list, rising.
fn to_remove(b: &SoundBook, ids: &[u64]) -> Ids<16>
    ensures { result ≡ id_cells 16 (to_remove ids.now (view b.now.parts)) }
{
    rising(&among(&submitted_ids(&b.parts), ids))
}

pub fn retain_submitted_sound(b: SoundBook, ids: &[u64]) -> Reply<Ids<64>, BookData>
    ensures { result ≡ ids_reply b.parts (run_book (retain_submitted ids.now) (view b.parts)) }
{
    if 64 < ids.len() {
        return refused(b.parts, Refusal::BadList);
    }
    let gone = to_remove(&b, ids);
    let left = withdraw_each(b, items(&gone));
    settled(b.parts, left, widened(&gone))
}
