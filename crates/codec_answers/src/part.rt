// Flags, lengths and optional values.
ghost use Rattle.std.specs.Prelude.{List, ℕ, ◌+◌};
ghost use Rattle.codec_forms.specs.Wire.{be};
ghost use Rattle.codec_append.specs.Fits.{Fits, FitsWithin};
ghost use Rattle.codec_answers.specs.Forms.{flag_number, enc_option};

use codec_append::{append_byte, append_bytes};
use codec_forms::write::number_bytes;

pub fn append_flag(out: &mut [u8], at: usize, b: &bool) -> usize
    ensures { FitsWithin 1 (be 1 (flag_number b.now)) at out.old out.new result }
{
    append_byte(out, at, *b as u8)
}

// The length of what was written into a lent buffer: the low four bytes.
pub fn append_length(out: &mut [u8], at: usize, n: usize) -> usize
    ensures { Fits (be 4 n) at out.old out.new result }
{
    let a = number_bytes(n as u64);
    append_bytes(out, at, &a[4..8])
}

// A value that may be absent. The caller names the function that appends it; the ghost value is its form, and how long that is at most.
// The clause with `IsAlwaysCallable` is std's form for a function that is lent.
pub fn append_option<T, F: Fn(&mut [u8], usize, &T) -> usize>(
    out: &mut [u8],
    at: usize,
    value: &Option<T>,
    append: F,
) -> usize
    ghost form: { (T → List ℕ) × ℕ }
    requires callable { F.IsAlwaysCallable append }
    requires appends { (d : _) (e : _) (x : _) (r : _) (d' : _) → F.post append d e x r d' → FitsWithin form.1 (form.0 x.now) e d.now d'.now r }
    ensures { FitsWithin (1 + form.1) (enc_option form.0 value.now) at out.old out.new result }
{
    match value {
        None => append_byte(out, at, 0),
        Some(x) => {
            let e = append_byte(&mut *out, at, 1);
            append(out, e, x)
        }
    }
}
