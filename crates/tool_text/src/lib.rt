// Numbers and bytes as text, appended to a lent buffer from place `at` on. Each function answers the place behind what it wrote;
// a part for which there is no room is left out.
// Buffer and place are two arguments, as in `codec_append`, whose law `Fits` speaks of both.
// No `write!` into the buffer: where the room ends it leaves a part half written, and here such a part is left out.
#![tactic(auto)]

ghost use Rattle.std.specs.Prelude.{◌≡◌, ◌≤◌, ◌<◌, ◌++◌, length, drop};
ghost use Rattle.codec_append.specs.Fits.{Fits};
ghost use Rattle.codec_forms.specs.Wire.{enc_many};
ghost use Rattle.tool_text.specs.Numbers.{digit, decimal, padded, hex_byte, hex, spaced_hex, number_line, hex_line};

use codec_append::append_bytes;

// The digits of n at the end of a; answers where they start.
fn spell(n: u64, a: &mut [u8; 20]) -> usize
    requires { length a.old ≡ 20 }
    ensures { (result ≤ 20) × (length a.new ≡ 20) × (drop result a.new ≡ decimal n) }
{
    let mut i: usize = 20;
    let mut rest = n;
    // How many digits there are shows only as they are divided off.
    while 10 <= rest {
        i -= 1;
        a[i] = (48 + rest % 10) as u8;
        rest /= 10;
    }
    i -= 1;
    a[i] = (48 + rest) as u8;
    i
}

pub fn append_decimal(out: &mut [u8], at: usize, n: u64) -> usize
    ensures { Fits (decimal n) at out.old out.new result }
{
    let mut a = [0u8; 20];
    let i = spell(n, &mut a);
    append_bytes(out, at, &a[i..])
}

// The last K digits of n, with zeros in front. By place (tried: `iter_mut().rev()`, whose invariant has to speak of the cells handed out).
pub fn append_padded<const K: usize>(out: &mut [u8], at: usize, n: u64) -> usize
    requires { K ≤ 20 }
    ensures { Fits (padded K n) at out.old out.new result }
{
    let mut digits = [0u8; K];
    let mut rest = n;
    for i in (0..K).rev() {
        digits[i] = (48 + rest % 10) as u8;
        rest /= 10;
    }
    append_bytes(out, at, &digits)
}

fn digit_of(d: u8) -> u8
    requires { d < 16 }
    ensures { result ≡ digit d }
{
    if d < 10 { 48 + d } else { 87 + d }
}

fn append_hex_byte(out: &mut [u8], at: usize, b: u8) -> usize
    ensures { Fits (hex_byte b) at out.old out.new result }
{
    let two = [digit_of(b / 16), digit_of(b % 16)];
    append_bytes(out, at, &two)
}

// Each byte as two digits behind `gap`.
fn append_digits(out: &mut [u8], at: usize, gap: &[u8], src: &[u8]) -> usize
    ensures { Fits (enc_many (λ b. gap.now ++ hex_byte b) src.now) at out.old out.new result }
{
    let mut e = at;
    for b in src {
        let gap_end = append_bytes(&mut *out, e, gap);
        e = append_hex_byte(&mut *out, gap_end, *b);
    }
    e
}

#[tactic(auto, unfolding(crate::specs::Numbers::hex))]
pub fn append_hex(out: &mut [u8], at: usize, src: &[u8]) -> usize
    ensures { Fits (hex src.now) at out.old out.new result }
{
    append_digits(out, at, b"", src)
}

// Each byte behind a space.
#[tactic(auto, unfolding(crate::specs::Numbers::spaced_hex))]
pub fn append_spaced_hex(out: &mut [u8], at: usize, src: &[u8]) -> usize
    ensures { Fits (spaced_hex src.now) at out.old out.new result }
{
    append_digits(out, at, b" ", src)
}

pub fn append_number_line(out: &mut [u8], at: usize, label: &[u8], n: u64) -> usize
    ensures { Fits (number_line label.now n) at out.old out.new result }
{
    let label_end = append_bytes(&mut *out, at, label);
    let number_end = append_decimal(&mut *out, label_end, n);
    append_bytes(out, number_end, b"\n")
}

pub fn append_hex_line(out: &mut [u8], at: usize, label: &[u8], src: &[u8]) -> usize
    ensures { Fits (hex_line label.now src.now) at out.old out.new result }
{
    let label_end = append_bytes(&mut *out, at, label);
    let hex_end = append_hex(&mut *out, label_end, src);
    append_bytes(out, hex_end, b"\n")
}
