// A coin string taken apart: parent, puzzle hash and amount, if it is made of these.
ghost use Rattle.std.specs.Prelude.{◌≡◌, ◌≤◌, length};
ghost use Rattle.codec_append.specs.Fits.{Fits};
ghost use Rattle.tool_bundle_text.specs.Coins.{amount_of, is_coin, parts_text, coin_or_bytes, coin_text};

use base_coin_string::from_parts;
use codec_cursor::read_hash;
use tool_text::{append_hex_line, append_number_line};

// The amount of a coin string that is_coin accepts.
#[tactic(auto, unfolding(crate::specs::Coins::amount_of, crate::specs::Coins::amount_from))]
pub fn amount(c: &[u8]) -> u64
    ensures { result ≡ amount_of c.now }
{
    c.iter()
        .skip(64)
        .fold(0, |v, b| v % 0x100_0000_0000_0000 * 256 + u64::from(*b))
}

// Whether a coin string is the one of its parent, its puzzle hash and its amount.
pub fn is_coin(c: &[u8]) -> bool
    ensures { result ≡ is_coin c.now }
{
    if c.len() < 64 {
        return false;
    }
    let mut parent_at: usize = 0;
    let mut puzzle_at: usize = 32;
    let parent_hash = read_hash(c, &mut parent_at);
    let puzzle_hash = read_hash(c, &mut puzzle_at);
    let v = amount(c);
    let made = from_parts(parent_hash, puzzle_hash, v);
    let bytes = made.bytes;
    let n = made.len as usize;
    c == &bytes[..n]
}

fn append_parts(out: &mut [u8], at: usize, c: &[u8]) -> usize
    requires { 64 ≤ length c.now }
    ensures { Fits (parts_text c.now) at out.old out.new result }
{
    let v = amount(c);
    let parent_end = append_hex_line(&mut *out, at, b"      coin parent: ", &c[0..32]);
    let puzzle_end = append_hex_line(
        &mut *out,
        parent_end,
        b"      coin puzzle hash: ",
        &c[32..64],
    );
    append_number_line(out, puzzle_end, b"      coin amount: ", v)
}

// A coin by its parts, or by its bytes.
fn append_coin_or_bytes(out: &mut [u8], at: usize, c: &[u8]) -> usize
    ensures { Fits (coin_or_bytes c.now) at out.old out.new result }
{
    if is_coin(c) {
        append_parts(out, at, c)
    } else {
        let label = b"      coin bytes (not a parent, puzzle hash and amount): ";
        append_hex_line(out, at, label, c)
    }
}

pub fn append_coin(out: &mut [u8], at: usize, c: &[u8]) -> usize
    ensures { Fits (coin_text c.now) at out.old out.new result }
{
    let id = base_sha256::sha256(c);
    let parts_end = append_coin_or_bytes(&mut *out, at, c);
    append_hex_line(out, parts_end, b"      coin id: ", &id)
}
