// Coin strings: made of their parts, hashed to coin ids, and listed in bytes.
#![tactic(auto)]

ghost use Rattle.std.specs.Prelude.{◌≡◌, ◌+◌, ◌-◌, ◌≤◌, ◌<◌, min, [], take, drop, length};
ghost use Rattle.base_coin_string.specs.Amount.{atom_length, big_endian, atom_of};
ghost use Rattle.base_coin_string.specs.Coin.{FromParts, cell_of, coin_id_of};
ghost use Rattle.base_coin_string.specs.Build.{pushes};
ghost use Rattle.base_coin_string.specs.CoinList.{count_of, end_at, coin_listb, coins_in};
ghost use Rattle.base_coin_string.specs.CoinIds.{id_listb, ids_in};
ghost use Rattle.base_coin_string.specs.Order.{cell_order};
ghost use Rattle.base_lists.specs.Bytes.{eqs, is_in};

use std::cmp::Ordering;

// The first len bytes are the coin's, and the others zero. The library has no heap.
#[derive(Clone, Copy)]
pub struct CoinString {
    pub bytes: [u8; 73],
    pub len: u8,
}

// How many bytes the amount's atom has.
fn atom_len(amount: u64) -> usize
    ensures { result ≡ atom_length amount }
{
    if amount == 0 {
        return 0;
    }
    (amount.ilog2() as usize + 1) / 8 + 1
}

// The amount in nine bytes of two's complement: the first is zero.
fn nine_bytes(amount: u64) -> [u8; 9]
    ensures { result ≡ big_endian 9 amount }
{
    let mut b = [0; 9];
    b[1..].copy_from_slice(&amount.to_be_bytes());
    b
}

// The bytes of a slice behind the coin's.
fn push_all(c: CoinString, s: &[u8]) -> CoinString
    requires { c.len + length s.now ≤ 73 }
    ensures { result ≡ pushes c s.now }
{
    let at = usize::from(c.len);
    let mut out = c;
    out.bytes[at..at + s.len()].copy_from_slice(s);
    out.len += s.len() as u8;
    out
}

// The amount's atom behind the coin's bytes.
fn push_amount(c: CoinString, amount: u64) -> CoinString
    requires { c.len ≤ 64 }
    ensures { result ≡ pushes c (atom_of amount) }
{
    let b = nine_bytes(amount);
    let z = 9 - atom_len(amount);
    push_all(c, &b[z..])
}

// No bytes yet.
fn empty() -> CoinString
    ensures { result ≡ cell_of [] }
{
    CoinString {
        bytes: [0; 73],
        len: 0,
    }
}

// A coin of its parts.
pub fn from_parts(parent: [u8; 32], puzzle_hash: [u8; 32], amount: u64) -> CoinString
    ensures { FromParts parent puzzle_hash amount result }
{
    let parented = push_all(empty(), &parent);
    let hashed = push_all(parented, &puzzle_hash);
    push_amount(hashed, amount)
}

// A length within a cell: the whole cell where it is more.
fn within(len: u8) -> usize
    ensures { result ≡ min len 73 }
{
    usize::from(len).min(73)
}

// The coin's id: SHA-256 of its first len bytes.
// Cell and length stand apart, as a spend of the book has them (`CoinSpend`): a `CoinString` of them would be a copy.
pub fn to_coin_id(coin: [u8; 73], len: u8) -> [u8; 32]
    ensures { result ≡ coin_id_of (take len coin) }
{
    let end = within(len);
    base_sha256::sha256(&coin[..end])
}

// The bytes of s from one place to another, as far as they are there.
fn part(s: &[u8], from: usize, to: usize) -> &[u8]
    ensures { result.now ≡ take (to - from) (drop from s.now) }
{
    s.get(from..to.min(s.len())).unwrap_or(&[])
}

// The first 73 bytes of a slice in a cell.
pub fn from_bytes(s: &[u8]) -> CoinString
    ensures { result ≡ cell_of (take 73 s.now) }
{
    let n = s.len().min(73);
    push_all(empty(), &s[..n])
}

// How many coins a list says it has.
pub fn list_count(s: &[u8]) -> usize
    ensures { result ≡ count_of s.now }
{
    match s {
        [high, low, ..] => usize::from(u16::from_be_bytes([*high, *low])),
        _ => 0,
    }
}

// The end of the coin whose length stands at a place of a list, if one stands whole.
pub fn coin_end(s: &[u8], at: usize) -> Option<usize>
    ensures { result ≡ end_at s.now at }
{
    let n = usize::from(*s.get(at)?);
    let from = at + 1;
    if n <= 73 && n <= s.len() - from {
        Some(from + n)
    } else {
        None
    }
}

// The bytes of s from one place to another are the coin's.
pub fn coin_is(s: &[u8], from: usize, to: usize, coin: [u8; 73], len: u8) -> bool
    ensures { result ≡ eqs (take (to - from) (drop from s.now)) (take len coin) }
{
    let n = within(len);
    part(s, from, to) == &coin[..n]
}

// The bytes are a coin list, of at most 800 coins.
pub fn is_coin_list(s: &[u8]) -> bool
    ensures { result ≡ coin_listb s.now }
{
    let count = list_count(s);
    if s.len() < 2 || 800 < count {
        return false;
    }
    let mut at = 2;
    for _i in 0..count {
        let Some(to) = coin_end(s, at) else {
            return false;
        };
        at = to;
    }
    at == s.len()
}

// The coin is one of those that s lists.
pub fn has_coin(s: &[u8], coin: [u8; 73], len: u8) -> bool
    ensures { result ≡ is_in (coins_in s.now) (take len coin) }
{
    let count = list_count(s);
    let mut at = 2;
    for _i in 0..count {
        let Some(to) = coin_end(s, at) else {
            return false;
        };
        if coin_is(s, at + 1, to, coin, len) {
            return true;
        }
        at = to;
    }
    false
}

// The bytes are up to 800 coin ids.
pub fn is_id_list(s: &[u8]) -> bool
    ensures { result ≡ id_listb s.now }
{
    s.len() % 32 == 0 && s.len() / 32 <= 800
}

// The id is one of those that s lists.
pub fn has_id(s: &[u8], id: &[u8; 32]) -> bool
    ensures { result ≡ is_in (ids_in s.now) id.now }
{
    s.as_chunks::<32>().0.contains(id)
}

// The order of two coins' bytes.
// A function and no derived `Ord`, which would compare the cells behind the coin's bytes too.
pub fn compare_coins(a: CoinString, b: CoinString) -> Ordering
    ensures { result ≡ cell_order a b }
{
    let m = within(a.len);
    let n = within(b.len);
    a.bytes[..m].cmp(&b.bytes[..n])
}
