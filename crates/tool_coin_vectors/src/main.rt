// Writes the amount atom, the coin string and the coin id of coins made of their parts, a coin to a line.
#![tactic(auto)]

ghost use Rattle.std.specs.Prelude.{◌≤◌, length};

use base_coin_string::{from_parts, to_coin_id};

const AMOUNTS: [u64; 35] = [
    0,
    1,
    127,
    128,
    255,
    256,
    32767,
    32768,
    65535,
    65536,
    8388607,
    8388608,
    16777215,
    16777216,
    2147483647,
    2147483648,
    4294967295,
    4294967296,
    549755813887,
    549755813888,
    1099511627775,
    1099511627776,
    1750000000000,
    140737488355327,
    140737488355328,
    281474976710655,
    281474976710656,
    36028797018963967,
    36028797018963968,
    72057594037927935,
    72057594037927936,
    9223372036854775807,
    9223372036854775808,
    18446744073709551557,
    18446744073709551615,
];

const DIGITS: [u8; 16] = *b"0123456789abcdef";

// The bytes and `end` behind them. A write that fails is dropped, and the next is tried: the status is 0 all the same.
fn show(rt: &impl Print, s: &[u8], end: u8)
    requires { length s.now ≤ 73 }
{
    let mut text = [end; 147];
    for (i, b) in s.iter().enumerate() {
        text[2 * i] = DIGITS[usize::from(b / 16)];
        text[2 * i + 1] = DIGITS[usize::from(b % 16)];
    }
    let _ = rt.write_all(&text[..2 * s.len() + 1]);
}

// 32 bytes, of which byte i is step times i + k modulo 256.
fn filled(step: u8, k: u8) -> [u8; 32] {
    let mut a = [0; 32];
    let mut x = k;
    for cell in &mut a {
        *cell = x;
        x = x.wrapping_add(step);
    }
    a
}

fn show_coin(rt: &impl Print, amount: u64, k: u8) {
    let coin = from_parts(filled(3, k), filled(5, k), amount);
    // At least the 64 bytes of the two hashes.
    let n = usize::from(coin.len).clamp(64, 73);
    show(rt, &coin.bytes[64..n], b' ');
    show(rt, &coin.bytes[..n], b' ');
    show(rt, &to_coin_id(coin.bytes, coin.len), b'\n');
}

fn main(rt: HostRuntime) {
    for (k, amount) in AMOUNTS.iter().enumerate() {
        show_coin(&rt, *amount, k as u8);
    }
}
