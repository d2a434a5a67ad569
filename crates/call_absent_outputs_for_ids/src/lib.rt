// `absent_outputs_for_ids`: of the listed submissions the outputs that are absent, into a lent buffer.
#![tactic(auto)]

ghost use Rattle.std.specs.Prelude.{◌≡◌, ◌+◌, ◌≤◌, length};
ghost use Rattle.base_coin_string.specs.CoinList.{coins_in};
ghost use Rattle.book.specs.Model.{view};
ghost use Rattle.rules.specs.Steps.{run_book};
ghost use Rattle.rules.specs.Calls.AbsentOutputsForIds.{absent_outputs_for_ids};
ghost use Rattle.part_replies.specs.Reply.{written_reply, buffer_left};
ghost use Rattle.call_absent_outputs_for_ids.specs.Outputs.{absent_of, PutAbsent, AbsentOfAll};

use base_coin_string::is_coin_list;
use book::refusal::Refusal;
use book::sound::SoundBook;
use book::{BookData, SubmittedTx};
use book_coins::expected_output_coins;
use part_coin_lists::{Placed, put_listed};
use part_lookup::submitted;
use part_replies::{Reply, refused};
use part_written_answers::write_list;

// The outputs of one submission that are absent, if it is listed.
fn put_absent(out: &mut [u8], at: usize, t: SubmittedTx, ids: &[u64], absent: &[u8]) -> Placed
    requires { at + 1184 ≤ length out.old }
    ensures { PutAbsent (absent_of ids.now (coins_in absent.now) t) at out.old out.new result }
{
    if !ids.contains(&t.entry.id.0) {
        return Placed { at, count: 0 };
    }
    let outputs = expected_output_coins(t.entry.intent.base_bundle);
    put_listed(out, at, outputs, absent)
}

fn put_all_absent(out: &mut [u8], b: &SoundBook, ids: &[u64], absent: &[u8]) -> Placed
    requires in_bounds { 18944 ≤ length out.old }
    ensures { AbsentOfAll ids.now (coins_in absent.now) (view b.now.parts).submitted out.old out.new result }
{
    let mut at = 0;
    let mut count = 0;
    let retained = submitted(&b.parts);
    for t in retained {
        let p = put_absent(&mut *out, at, *t, ids, absent);
        at = p.at;
        count += p.count;
    }
    Placed { at, count }
}

pub fn absent_outputs_for_ids_sound(
    b: SoundBook,
    ids: &[u64],
    absent: &[u8],
    out: &mut [u8],
) -> Reply<usize, BookData>
    ensures { (result ≡ written_reply b.parts (run_book (absent_outputs_for_ids ids.now absent.now (length out.old)) (view b.parts))) × (out.new ≡ buffer_left out.old (run_book (absent_outputs_for_ids ids.now absent.now (length out.old)) (view b.parts))) }
{
    if 64 < ids.len() {
        return refused(b.parts, Refusal::BadList);
    }
    if !is_coin_list(absent) {
        return refused(b.parts, Refusal::BadList);
    }
    // The largest list in local memory, and how much of it is written: the library has no heap.
    let mut list = [0u8; 18944];
    let p = put_all_absent(&mut list, &b, ids, absent);
    write_list(b, p.count, &list[..p.at], out)
}
