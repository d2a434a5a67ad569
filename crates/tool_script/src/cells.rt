// Bundle cells (1,073 bytes) and fee intent cells (41 bytes). Of a bundle only a run mark above 1 cannot be held, of a fee intent
// only a kind above 2.
ghost use Rattle.std.specs.Prelude.{IfSome};
ghost use Rattle.tool_script.specs.Onward.{On, Onward};

use crate::Read;
use crate::kind::flag_of;
use book::{CoinSpend, FeeIntentKind, Output, SpendBundle, SubmissionFeeIntent};
use codec_bytes::put::put;
use codec_bytes::read::has;
use codec_cursor::{FAR, read_count, read_hash, read_number, refused};

fn read_output(s: &[u8], at: &mut usize) -> Output
    ensures { On s.now at.old at.new }
{
    let puzzle_hash = read_hash(s, &mut *at);
    let amount = read_number(s, at);
    Output {
        puzzle_hash,
        amount,
    }
}

// Four reads, here and in `read_spends`: a loop would fill an array of zeros and need an invariant over the cursor.
fn read_outputs(s: &[u8], at: &mut usize) -> [Output; 4]
    ensures { On s.now at.old at.new }
{
    [
        read_output(s, &mut *at),
        read_output(s, &mut *at),
        read_output(s, &mut *at),
        read_output(s, at),
    ]
}

fn read_coin(s: &[u8], at: &mut usize) -> [u8; 73]
    ensures { On s.now at.old at.new }
{
    let mut coin = [0u8; 73];
    let start = *at;
    let room = has(s, start, 73);
    if !room {
        *at = refused(start);
        return coin;
    }
    let end = start + 73;
    *at = end;
    put(&s[start..end], &mut coin);
    coin
}

fn read_spend(s: &[u8], at: &mut usize) -> Option<CoinSpend>
    ensures { On s.now at.old at.new }
{
    let coin_len = read_count(s, &mut *at, 255);
    let coin = read_coin(s, &mut *at);
    let digest = read_hash(s, &mut *at);
    let mark = read_count(s, &mut *at, 255);
    let output_count = read_count(s, &mut *at, 255);
    let outputs = read_outputs(s, at);
    flag_of(mark).map(|readable| CoinSpend {
        coin_len,
        coin,
        digest,
        readable,
        output_count,
        outputs,
    })
}

fn read_spends(s: &[u8], at: &mut usize) -> [Option<CoinSpend>; 4]
    ensures { On s.now at.old at.new }
{
    [
        read_spend(s, &mut *at),
        read_spend(s, &mut *at),
        read_spend(s, &mut *at),
        read_spend(s, at),
    ]
}

fn bundle_of(count: u8, cells: [Option<CoinSpend>; 4]) -> Option<SpendBundle> {
    let [first, second, third, fourth] = cells;
    Some(SpendBundle {
        count,
        spends: [first?, second?, third?, fourth?],
    })
}

pub fn read_bundle(s: &[u8], at: usize) -> Option<Read<Option<SpendBundle>>>
    ensures { IfSome result (λ r. Onward s.now at r.at) }
{
    let mut end = at;
    let count = read_count(s, &mut end, 255);
    let cells = read_spends(s, &mut end);
    (end < FAR).then_some(Read {
        value: bundle_of(count, cells),
        at: end,
    })
}

// No `TryFrom`: type and trait are of other crates.
fn kind_of(n: u8) -> Option<FeeIntentKind> {
    match n {
        0 => Some(FeeIntentKind::AlreadyPaid),
        1 => Some(FeeIntentKind::NoFeeConfigured),
        2 => Some(FeeIntentKind::Attach),
        _ => None,
    }
}

pub fn read_fee_intent(s: &[u8], at: usize) -> Option<Read<Option<SubmissionFeeIntent>>>
    ensures { IfSome result (λ r. Onward s.now at r.at) }
{
    let mut end = at;
    let number = read_count(s, &mut end, 255);
    let target = read_hash(s, &mut end);
    let amount = read_number(s, &mut end);
    let value = kind_of(number).map(|kind| SubmissionFeeIntent {
        kind,
        target,
        amount,
    });
    (end < FAR).then_some(Read { value, at: end })
}
