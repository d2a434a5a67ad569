// `active_ids`: the ids of the Active submissions, in their order. Nothing changes.
#![tactic(auto)]

ghost use Rattle.std.specs.Prelude.{◌≡◌};
ghost use Rattle.book.specs.Model.{view, id_cells};
ghost use Rattle.rules.specs.Steps.{run_book};
ghost use Rattle.rules.specs.Calls.ActiveIds.{active_ids};
ghost use Rattle.part_replies.specs.Reply.{ids_reply};
ghost use Rattle.call_active_ids.specs.Active.{active_in};

use book::sound::SoundBook;
use book::{BookData, Ids};
use part_ids::{empty, push, widened};
use part_lookup::submitted;
use part_replies::{Reply, done};
use part_submitted::entry::active_entry;

// A loop and no `collect`: `Ids` has sixteen cells, so that not every iterator could fill it.
// The ids of the Active submissions, in their order.
fn active_in(b: &SoundBook) -> Ids<16>
    ensures { result ≡ id_cells 16 (active_in (view b.now.parts).submitted) }
{
    let mut out = empty();
    let retained = submitted(&b.parts);
    for t in retained {
        if active_entry(t.entry) {
            push(&mut out, t.entry.id);
        }
    }
    out
}

pub fn active_ids_sound(b: SoundBook) -> Reply<Ids<64>, BookData>
    ensures { result ≡ ids_reply b.parts (run_book active_ids (view b.parts)) }
{
    let found = active_in(&b);
    done(b.parts, widened(&found))
}
