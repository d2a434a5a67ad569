// SHA-256 of FIPS 180-4, against the definition of specs/Fips.antt.
#![tactic(auto)]

ghost use Rattle.std.specs.Prelude.{◌≡◌, ◌+◌, ◌-◌, ◌*◌, ◌/◌, ◌%◌, ◌^◌, ◌<◌, ◌≤◌, ◌++◌, length, take, drop, replicate};
ghost use Rattle.base_sha256.specs.Fips.{Ch, Maj, Σ0, Σ1, σ0, σ1, K as round_constants_of_fips, word_at, next, mixed, T1, T2, schedule, round, rounds, plus, compress, hashed, be64, pad, H0, sha256_of};
ghost use Rattle.base_sha256.specs.Code.{words_of, round_at, eight_at, padded, Unmarked, Behind, InBlock, digest_of};

// A static, and no constant: one that is indexed is laid out anew at each use.
static K: [u32; 64] = [
    0x428a2f98, 0x71374491, 0xb5c0fbcf, 0xe9b5dba5, 0x3956c25b, 0x59f111f1, 0x923f82a4, 0xab1c5ed5,
    0xd807aa98, 0x12835b01, 0x243185be, 0x550c7dc3, 0x72be5d74, 0x80deb1fe, 0x9bdc06a7, 0xc19bf174,
    0xe49b69c1, 0xefbe4786, 0x0fc19dc6, 0x240ca1cc, 0x2de92c6f, 0x4a7484aa, 0x5cb0a9dc, 0x76f988da,
    0x983e5152, 0xa831c66d, 0xb00327c8, 0xbf597fc7, 0xc6e00bf3, 0xd5a79147, 0x06ca6351, 0x14292967,
    0x27b70a85, 0x2e1b2138, 0x4d2c6dfc, 0x53380d13, 0x650a7354, 0x766a0abb, 0x81c2c92e, 0x92722c85,
    0xa2bfe8a1, 0xa81a664b, 0xc24b8b70, 0xc76c51a3, 0xd192e819, 0xd6990624, 0xf40e3585, 0x106aa070,
    0x19a4c116, 0x1e376c08, 0x2748774c, 0x34b0bcb5, 0x391c0cb3, 0x4ed8aa4a, 0x5b9cca4f, 0x682e6ff3,
    0x748f82ee, 0x78a5636f, 0x84c87814, 0x8cc70208, 0x90befffa, 0xa4506ceb, 0xbef9a3f7, 0xc67178f2,
];

// The eight words of a hash value.
#[derive(Clone, Copy)]
pub struct State {
    pub a: u32,
    pub b: u32,
    pub c: u32,
    pub d: u32,
    pub e: u32,
    pub f: u32,
    pub g: u32,
    pub h: u32,
}

// FIPS 180-4 names four functions Σ0, Σ1, σ0, σ1: one function told their three numbers would hide which is which.
fn big_sigma0(x: u32) -> u32
    ensures { result ≡ Σ0 x }
{
    x.rotate_right(2) ^ x.rotate_right(13) ^ x.rotate_right(22)
}

fn big_sigma1(x: u32) -> u32
    ensures { result ≡ Σ1 x }
{
    x.rotate_right(6) ^ x.rotate_right(11) ^ x.rotate_right(25)
}

fn small_sigma0(x: u32) -> u32
    ensures { result ≡ σ0 x }
{
    x.rotate_right(7) ^ x.rotate_right(18) ^ (x >> 3)
}

fn small_sigma1(x: u32) -> u32
    ensures { result ≡ σ1 x }
{
    x.rotate_right(17) ^ x.rotate_right(19) ^ (x >> 10)
}

fn ch(x: u32, y: u32, z: u32) -> u32
    ensures { result ≡ Ch x y z }
{
    (x & y) ^ (!x & z)
}

fn maj(x: u32, y: u32, z: u32) -> u32
    ensures { result ≡ Maj x y z }
{
    (x & y) ^ (x & z) ^ (y & z)
}

fn mix(w2: u32, w7: u32, w15: u32, w16: u32) -> u32
    ensures { result ≡ mixed w2 w7 w15 w16 }
{
    small_sigma1(w2)
        .wrapping_add(w7)
        .wrapping_add(small_sigma0(w15))
        .wrapping_add(w16)
}

fn temp1(e: u32, f: u32, g: u32, h: u32, k: u32, w: u32) -> u32
    ensures { result ≡ T1 e f g h k w }
{
    h.wrapping_add(big_sigma1(e))
        .wrapping_add(ch(e, f, g))
        .wrapping_add(k)
        .wrapping_add(w)
}

fn temp2(a: u32, b: u32, c: u32) -> u32
    ensures { result ≡ T2 a b c }
{
    big_sigma0(a).wrapping_add(maj(a, b, c))
}

fn round(s: State, k: u32, w: u32) -> State
    ensures { words_of result ≡ round (words_of s) k w }
{
    let t1 = temp1(s.e, s.f, s.g, s.h, k, w);
    let t2 = temp2(s.a, s.b, s.c);
    State {
        a: t1.wrapping_add(t2),
        b: s.a,
        c: s.b,
        d: s.c,
        e: s.d.wrapping_add(t1),
        f: s.e,
        g: s.f,
        h: s.g,
    }
}

// The word t of a block.
// Words and rounds go by the index t, here and below, since the standard numbers them; t < 16 and t < 64 are how many there are.
fn word_at(b: &[u8; 64], t: usize) -> u32
    requires { t < 16 }
    ensures { result ≡ word_at b.now t }
{
    let i = t * 4;
    u32::from_be_bytes([b[i], b[i + 1], b[i + 2], b[i + 3]])
}

// The word t of a message schedule, from those before it.
fn next_at(w: &[u32; 64], t: usize) -> u32
    requires { (16 ≤ t) × (t < 64) }
    ensures { result ≡ next w.now t }
{
    mix(w[t - 2], w[t - 7], w[t - 15], w[t - 16])
}

// The first 16 words of a block's message schedule, in room for all.
fn first_words(b: &[u8; 64]) -> [u32; 64]
    ensures { take 16 result ≡ schedule b.now 16 }
{
    let mut w = [0u32; 64];
    for t in 0..16 {
        w[t] = word_at(b, t);
    }
    w
}

// The message schedule of a block.
fn schedule(b: &[u8; 64]) -> [u32; 64]
    ensures { result ≡ schedule b.now 64 }
{
    let mut w = first_words(b);
    for t in 16..64 {
        w[t] = next_at(&w, t);
    }
    w
}

fn round_at(s: State, w: &[u32; 64], t: usize) -> State
    requires { t < 64 }
    ensures { words_of result ≡ round_at round_constants_of_fips w.now t (words_of s) }
{
    round(s, K[t], w[t])
}

// Eight rounds, written out: a loop of single rounds moves all eight words in each and is slower by a fifth.
fn eight_rounds(s: State, w: &[u32; 64], t: usize) -> State
    requires { t + 7 < 64 }
    ensures { words_of result ≡ eight_at round_constants_of_fips w.now t (words_of s) }
{
    let s1 = round_at(s, w, t);
    let s2 = round_at(s1, w, t + 1);
    let s3 = round_at(s2, w, t + 2);
    let s4 = round_at(s3, w, t + 3);
    let s5 = round_at(s4, w, t + 4);
    let s6 = round_at(s5, w, t + 5);
    let s7 = round_at(s6, w, t + 6);
    round_at(s7, w, t + 7)
}

// The 64 rounds.
fn rounds(st: State, w: &[u32; 64]) -> State
    ensures { words_of result ≡ rounds round_constants_of_fips w.now (words_of st) 64 }
{
    let mut s = st;
    for i in 0..8 {
        s = eight_rounds(s, w, i * 8);
    }
    s
}

fn add_words(s: State, t: State) -> State
    ensures { words_of result ≡ plus (words_of s) (words_of t) }
{
    State {
        a: s.a.wrapping_add(t.a),
        b: s.b.wrapping_add(t.b),
        c: s.c.wrapping_add(t.c),
        d: s.d.wrapping_add(t.d),
        e: s.e.wrapping_add(t.e),
        f: s.f.wrapping_add(t.f),
        g: s.g.wrapping_add(t.g),
        h: s.h.wrapping_add(t.h),
    }
}

// The hash value after one more block.
fn hash_block(st: State, b: &[u8; 64]) -> State
    ensures { words_of result ≡ compress (words_of st) b.now }
{
    let w = schedule(b);
    let s = rounds(st, &w);
    add_words(st, s)
}

// A number in 64 bits, at the end of a block of zeros.
fn length_block(x: u64) -> [u8; 64]
    ensures { result ≡ replicate 56 0 ++ be64 x }
{
    let mut b = [0; 64];
    b[56..].copy_from_slice(&x.to_be_bytes());
    b
}

// The block at a place of a padded message, with zeros for the message and its mark.
// This, `marked_block` and `padded_block` share a clause on `end` and `at`: a struct of them would be made anew for each block.
fn unmarked_block(x: u64, end: usize, at: usize) -> [u8; 64]
    requires { (at + 56 ≤ end) × ((end - at) % 64 ≡ 56) }
    ensures { Unmarked (be64 x) end at result }
{
    if end - at == 56 {
        length_block(x)
    } else {
        [0; 64]
    }
}

// The same with the mark.
fn marked_block(s: &[u8], x: u64, end: usize, at: usize) -> [u8; 64]
    requires { (length s.now < end) × (at + 56 ≤ end) × ((end - at) % 64 ≡ 56) }
    ensures { Behind (padded s.now (end - length s.now - 1) (be64 x)) (length s.now) at result }
{
    let mut b = unmarked_block(x, end, at);
    if at <= s.len() && s.len() - at < 64 {
        b[s.len() - at] = 0x80;
    }
    b
}

// How many of a message's n bytes lie in the block at a place.
fn count_in_block(n: usize, at: usize) -> usize
    ensures { InBlock n at result }
{
    n.saturating_sub(at).min(64)
}

// The block at a place of a padded message.
fn padded_block(s: &[u8], x: u64, end: usize, at: usize) -> [u8; 64]
    requires { (length s.now < end) × (at + 56 ≤ end) × ((end - at) % 64 ≡ 56) }
    ensures { result ≡ take 64 (drop at (padded s.now (end - length s.now - 1) (be64 x))) }
{
    let mut b = marked_block(s, x, end, at);
    let m = count_in_block(s.len(), at);
    let rest = &s[at.min(s.len())..];
    b[..m].copy_from_slice(&rest[..m]);
    b
}

fn digest_of(s: State) -> [u8; 32]
    ensures { result ≡ digest_of s }
{
    let words = [
        s.a.to_be_bytes(),
        s.b.to_be_bytes(),
        s.c.to_be_bytes(),
        s.d.to_be_bytes(),
        s.e.to_be_bytes(),
        s.f.to_be_bytes(),
        s.g.to_be_bytes(),
        s.h.to_be_bytes(),
    ];
    let mut digest = [0; 32];
    digest.copy_from_slice(words.as_flattened());
    digest
}

fn initial_hash() -> State
    ensures { words_of result ≡ H0 }
{
    State {
        a: 0x6a09e667,
        b: 0xbb67ae85,
        c: 0x3c6ef372,
        d: 0xa54ff53a,
        e: 0x510e527f,
        f: 0x9b05688c,
        g: 0x1f83d9ab,
        h: 0x5be0cd19,
    }
}

// The hash value after the blocks that the message fills.
fn hash_full_blocks(s: &[u8]) -> State
    ensures { words_of result ≡ hashed (pad s.now) (length s.now / 64) }
{
    let mut st = initial_hash();
    for block in s.as_chunks().0 {
        st = hash_block(st, block);
    }
    st
}

// The SHA-256 digest of a message.
pub fn sha256(s: &[u8]) -> [u8; 32]
    ensures { result ≡ sha256_of s.now }
{
    let n = s.len();
    let mut st = hash_full_blocks(s);
    let blocks = (n + 8) / 64 + 1;
    let end = blocks * 64 - 8;
    let x = (n as u64) << 3;
    for i in n / 64..blocks {
        let b = padded_block(s, x, end, i * 64);
        st = hash_block(st, &b);
    }
    digest_of(st)
}
