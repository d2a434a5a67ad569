// Writes SHA-256 digests, one to a line: of the published examples, then of messages of 0 to 130 bytes.
#![tactic(auto)]

const DIGITS: [u8; 16] = *b"0123456789abcdef";

// A write that fails is dropped, and the next line is tried: the status is 0 all the same.
fn show(rt: &impl Print, s: &[u8]) {
    let mut line = [b'\n'; 65];
    for (i, b) in base_sha256::sha256(s).iter().enumerate() {
        line[2 * i] = DIGITS[usize::from(b / 16)];
        line[2 * i + 1] = DIGITS[usize::from(b % 16)];
    }
    let _ = rt.write_all(&line);
}

// A function of its own: where the array is written in `main`, the check of `main` runs out of stack.
fn million() -> [u8; 1_000_000] {
    [b'a'; 1_000_000]
}

// The message of n bytes, in room for the longest.
fn message(n: u8) -> [u8; 130] {
    let mut m = [0; 130];
    for (cell, i) in m.iter_mut().zip(0..n) {
        *cell = i.wrapping_mul(7).wrapping_add(n);
    }
    m
}

fn main(rt: HostRuntime) {
    show(&rt, b"");
    show(&rt, b"abc");
    show(
        &rt,
        b"abcdbcdecdefdefgefghfghighijhijkijkljklmklmnlmnomnopnopq",
    );
    show(
        &rt,
        b"abcdefghbcdefghicdefghijdefghijkefghijklfghijklmghijklmnhijklmnoijklmnopjklmnopqklmnopqrlmnopqrsmnopqrstnopqrstu",
    );
    let million = million();
    show(&rt, &million);
    for n in 0..=130 {
        show(&rt, &message(n)[..usize::from(n)]);
    }
}
