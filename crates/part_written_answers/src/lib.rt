// What the calls that write into a lent buffer share. The size is known before the first byte is written, so a refused call leaves the
// buffer as it was.
#![tactic(auto)]

ghost use Rattle.std.specs.Prelude.{◌≡◌, ◌++◌, ◌≤◌, length};
ghost use Rattle.codec_forms.specs.Wire.{be};
ghost use Rattle.book.specs.Model.{view};
ghost use Rattle.rules.specs.Steps.{run_book};
ghost use Rattle.rules.specs.Calls.Common.{writing};
ghost use Rattle.part_replies.specs.Reply.{written_reply, buffer_left};

use book::BookData;
use book::refusal::Refusal;
use book::sound::SoundBook;
use codec_forms::write::put_bytes;
use part_coin_lists::put_count;
use part_replies::{Reply, done, refused};

// A coin list of its count and its coins, or refusal 12.
pub fn write_list(
    b: SoundBook,
    count: usize,
    coins: &[u8],
    out: &mut [u8],
) -> Reply<usize, BookData>
    requires coins_len_bound { length coins.now ≤ 18944 }
    ensures { (result ≡ written_reply b.parts (run_book (writing (length out.old) (be 2 count ++ coins.now)) (view b.parts))) × (out.new ≡ buffer_left out.old (run_book (writing (length out.old) (be 2 count ++ coins.now)) (view b.parts))) }
{
    let n = coins.len() + 2;
    if out.len() < n {
        return refused(b.parts, Refusal::ShortBuffer);
    }
    let at = put_count(&mut *out, count);
    let end = put_bytes(out, at, coins);
    done(b.parts, end)
}
