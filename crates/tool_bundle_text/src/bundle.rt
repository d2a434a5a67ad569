// Outputs, spends and bundles. Any count is taken: where it is above the cells there are, all of them are written.
ghost use Rattle.std.specs.Prelude.{◌≡◌, ◌<◌, ◌^◌};
ghost use Rattle.base_coin_string.specs.Coin.{coin_of_parts, coin_id_of};
ghost use Rattle.codec_append.specs.Fits.{Fits};
ghost use Rattle.tool_text.specs.Each.{each_from};
ghost use Rattle.tool_bundle_text.specs.Bundles.{output_text, run_text, spend_text, bundle_text, variant_text};

use crate::coin::append_coin;
use base_coin_string::{from_parts, to_coin_id};
use book::{CoinSpend, Output, SpendBundle, SubmissionBroadcastVariant};
use codec_append::append_bytes;
use tool_text::{append_decimal, append_hex_line, append_number_line};

// The id of the coin that an output makes.
fn output_coin_id(parent: [u8; 32], o: Output) -> [u8; 32]
    ensures { result ≡ coin_id_of (coin_of_parts parent o.puzzle_hash o.amount) }
{
    let hash = o.puzzle_hash;
    let made = from_parts(parent, hash, o.amount);
    let bytes = made.bytes;
    to_coin_id(bytes, made.len)
}

// Output and spend have a bound on i, so that i + 1 is in range.
fn append_output(out: &mut [u8], at: usize, parent: [u8; 32], i: usize, o: Output) -> usize
    requires { i < 2 ^ 63 }
    ensures { Fits (output_text parent i o) at out.old out.new result }
{
    let hash = o.puzzle_hash;
    let amount = o.amount;
    let word_end = append_bytes(&mut *out, at, b"        output ");
    let number_end = append_decimal(&mut *out, word_end, (i + 1) as u64);
    let hash_end = append_hex_line(&mut *out, number_end, b" puzzle hash: ", &hash);
    let amount_end = append_number_line(&mut *out, hash_end, b"          amount: ", amount);
    let id = output_coin_id(parent, o);
    append_hex_line(out, amount_end, b"          coin id: ", &id)
}

// Outputs and spends have a loop each: what a passed function would have to promise is longer than the loop.
fn append_outputs(out: &mut [u8], at: usize, parent: [u8; 32], a: &[Output]) -> usize
    ensures { Fits (each_from (output_text parent) 0 a.now) at out.old out.new result }
{
    let mut e = at;
    for (i, o) in a.iter().enumerate() {
        e = append_output(&mut *out, e, parent, i, *o);
    }
    e
}

fn append_run(
    out: &mut [u8],
    at: usize,
    parent: [u8; 32],
    readable: bool,
    n: usize,
    a: [Output; 4],
) -> usize
    ensures { Fits (run_text parent readable n a) at out.old out.new result }
{
    if readable {
        let label = b"      run: readable, outputs: ";
        let count_end = append_number_line(&mut *out, at, label, n as u64);
        append_outputs(out, count_end, parent, &a[..n.min(4)])
    } else {
        append_bytes(out, at, b"      run: unreadable\n")
    }
}

fn append_spend(out: &mut [u8], at: usize, i: usize, s: CoinSpend) -> usize
    requires { i < 2 ^ 63 }
    ensures { Fits (spend_text i s) at out.old out.new result }
{
    let coin = s.coin;
    let digest = s.digest;
    let outputs = s.outputs;
    let readable = s.readable;
    let n = s.output_count as usize;
    let parent = to_coin_id(coin, s.coin_len);
    let heading_end = append_number_line(&mut *out, at, b"    spend ", (i + 1) as u64);
    let coin_len = usize::from(s.coin_len).min(73);
    let coin_end = append_coin(&mut *out, heading_end, &coin[..coin_len]);
    let digest_end = append_hex_line(
        &mut *out,
        coin_end,
        b"      digest of puzzle, solution and signature: ",
        &digest,
    );
    append_run(out, digest_end, parent, readable, n, outputs)
}

fn append_spends(out: &mut [u8], at: usize, a: &[CoinSpend]) -> usize
    ensures { Fits (each_from spend_text 0 a.now) at out.old out.new result }
{
    let mut e = at;
    for (i, s) in a.iter().enumerate() {
        e = append_spend(&mut *out, e, i, *s);
    }
    e
}

pub fn append_bundle(out: &mut [u8], at: usize, label: &[u8], b: SpendBundle) -> usize
    ensures { Fits (bundle_text label.now b) at out.old out.new result }
{
    let spends = b.spends;
    let n = b.count as usize;
    let count_end = append_number_line(&mut *out, at, label, n as u64);
    append_spends(out, count_end, &spends[..n.min(4)])
}

// Paper 01: a fee bundle is a mark with the bundle beside it.
// The fee bundle with the applied fee.
pub fn append_variant(out: &mut [u8], at: usize, v: SubmissionBroadcastVariant) -> usize
    ensures { Fits (variant_text v) at out.old out.new result }
{
    if v.fee_bearing {
        let bundle_end = append_bundle(&mut *out, at, b"  fee bundle, spends: ", v.bundle);
        let fee_end = append_number_line(&mut *out, bundle_end, b"  applied fee: ", v.applied_fee);
        append_bytes(out, fee_end, b"  the fee bundle above is to be delivered\n")
    } else {
        append_bytes(out, at, b"  fee bundle: none\n")
    }
}
