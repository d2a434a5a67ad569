// Each function appends one part to a lent buffer from place `at` on, and answers the place behind it; items for which there is no room
// are left out. Any count is taken: where it is above the cells there are, all of them are written, as in the definitions.
ghost use Rattle.std.specs.Prelude.{◌≡◌, ◌++◌, length, take};
ghost use Rattle.codec_forms.specs.Wire.{be, enc_many};
ghost use Rattle.codec_append.specs.Fits.{Fits};
ghost use Rattle.book.specs.Sound.{outputs_of};
ghost use Rattle.archive_bundle_form.specs.Forms.{encode_output, encode_run, encode_spend, encode_bundle, encode_height, encode_fee_intent};

use crate::each::{append_each, append_list};
use book::{CoinSpend, FeeIntentKind, Height, Output, SpendBundle, SubmissionFeeIntent};
use codec_append::{append_byte, append_bytes, append_number, append_optional_number};

pub fn append_output(out: &mut [u8], at: usize, o: &Output) -> usize
    ensures { Fits (encode_output o.now) at out.old out.new result }
{
    let e = append_bytes(&mut *out, at, &o.puzzle_hash);
    append_number(out, e, o.amount)
}

// A readable run: 1, output count, the first n outputs.
fn append_readable(out: &mut [u8], at: usize, a: &[Output; 4], n: usize) -> usize
    ensures { Fits (be 1 1 ++ be 1 (length (take n a.now)) ++ enc_many encode_output (take n a.now)) at out.old out.new result }
{
    let k = n.min(4);
    let e = append_byte(&mut *out, at, 1);
    append_list(out, e, &a[..k], append_output)
}

fn append_run(out: &mut [u8], at: usize, s: &CoinSpend) -> usize
    ensures { Fits (encode_run s.now.readable (outputs_of s.now)) at out.old out.new result }
{
    if s.readable {
        append_readable(out, at, &s.outputs, s.output_count as usize)
    } else {
        append_byte(out, at, 0)
    }
}

// The length and the bytes of a coin.
fn append_coin(out: &mut [u8], at: usize, coin: &[u8; 73], n: u8) -> usize
    ensures { Fits (be 1 n ++ take n coin.now) at out.old out.new result }
{
    let k = (n as usize).min(73);
    let e = append_byte(&mut *out, at, n);
    append_bytes(out, e, &coin[..k])
}

pub fn append_spend(out: &mut [u8], at: usize, s: &CoinSpend) -> usize
    ensures { Fits (encode_spend s.now) at out.old out.new result }
{
    let a = append_coin(&mut *out, at, &s.coin, s.coin_len);
    let b = append_bytes(&mut *out, a, &s.digest);
    append_run(out, b, s)
}

pub fn append_bundle(out: &mut [u8], at: usize, b: SpendBundle) -> usize
    ensures { Fits (encode_bundle b) at out.old out.new result }
{
    let n = (b.count as usize).min(4);
    let e = append_byte(&mut *out, at, b.count);
    append_each(out, e, &b.spends[..n], append_spend)
}

// One call, as `append_id` is: each says in its contract which number it writes.
pub fn append_height(out: &mut [u8], at: usize, h: Option<Height>) -> usize
    ensures { Fits (encode_height h) at out.old out.new result }
{
    append_optional_number(out, at, h.map(|x| x.0))
}

pub fn append_fee_intent(out: &mut [u8], at: usize, f: SubmissionFeeIntent) -> usize
    ensures { Fits (encode_fee_intent f) at out.old out.new result }
{
    match f.kind {
        FeeIntentKind::AlreadyPaid => append_byte(out, at, 0),
        FeeIntentKind::NoFeeConfigured => append_byte(out, at, 1),
        FeeIntentKind::Attach => {
            let a = append_byte(&mut *out, at, 2);
            let b = append_bytes(&mut *out, a, &f.target);
            append_number(out, b, f.amount)
        }
    }
}
