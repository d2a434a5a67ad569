// `causally_rolled_back_ids`: the ids of the submissions that the chain has rolled back, rising; nothing changes.
#![tactic(auto)]

ghost use Rattle.std.specs.Prelude.{◌≡◌};
ghost use Rattle.base_coin_string.specs.CoinIds.{ids_in};
ghost use Rattle.base_coin_string.specs.CoinList.{coins_in};
ghost use Rattle.book.specs.Model.{view, id_cells};
ghost use Rattle.rules.specs.Steps.{run_book};
ghost use Rattle.rules.specs.Calls.CausallyRolledBackIds.{causally_rolled_back_ids};
ghost use Rattle.part_replies.specs.Reply.{ids_reply};
ghost use Rattle.call_causally_rolled_back_ids.specs.RolledBack.{rolled_back_ids};

use base_coin_string::{is_coin_list, is_id_list};
use book::refusal::Refusal;
use book::sound::SoundBook;
use book::{BookData, Ids};
use part_chain_tests::rolled_back;
use part_ids::{empty, push, rising, widened};
use part_lookup::submitted;
use part_replies::{Reply, done, refused};

// A loop and no `collect`: `Ids` has sixteen cells, so that not every iterator could fill it.
// In the book's order.
fn rolled_back_ids(b: &SoundBook, absent: &[u8], inputs: &[u8]) -> Ids<16>
    ensures { result ≡ id_cells 16 (rolled_back_ids (coins_in absent.now) (ids_in inputs.now) (view b.now.parts)) }
{
    let mut out = empty();
    let retained = submitted(&b.parts);
    for t in retained {
        if rolled_back(t.entry, absent, inputs) {
            push(&mut out, t.entry.id);
        }
    }
    out
}

pub fn causally_rolled_back_ids_sound(
    b: SoundBook,
    absent: &[u8],
    inputs: &[u8],
) -> Reply<Ids<64>, BookData>
    ensures { result ≡ ids_reply b.parts (run_book (causally_rolled_back_ids absent.now inputs.now) (view b.parts)) }
{
    let coins = is_coin_list(absent);
    let live = is_id_list(inputs);
    let ok = coins & live;
    if !ok {
        return refused(b.parts, Refusal::BadList);
    }
    let ids = widened(&rising(&rolled_back_ids(&b, absent, inputs)));
    done(b.parts, ids)
}
