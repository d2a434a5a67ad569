// Items appended to a lent buffer from place `at` on. Each function answers the place behind what it wrote; it leaves out an item for
// which there is no room, so none of them requires anything.
#![tactic(auto)]

ghost use Rattle.codec_forms.specs.Wire.{be, enc_opt_number};
ghost use Rattle.codec_append.specs.Fits.{Fits};

use codec_bytes::read::has;
use codec_forms::write::{number_bytes, put_bytes};

// Buffer and place are two parameters of every writer and no struct: the place alone is answered, and contracts name it on its own.
pub fn append_bytes(out: &mut [u8], at: usize, src: &[u8]) -> usize
    ensures { Fits src.now at out.old out.new result }
{
    if has(&*out, at, src.len()) {
        put_bytes(out, at, src)
    } else {
        at
    }
}

// A count, a kind or a mark.
#[tactic(auto, using(codec_forms::specs::Overlay::one_byte))]
pub fn append_byte(out: &mut [u8], at: usize, b: u8) -> usize
    ensures { Fits (be 1 b) at out.old out.new result }
{
    append_bytes(out, at, &[b])
}

pub fn append_number(out: &mut [u8], at: usize, n: u64) -> usize
    ensures { Fits (be 8 n) at out.old out.new result }
{
    append_bytes(out, at, &number_bytes(n))
}

// A number that may be absent: the mark 0, or the mark 1 and the number.
pub fn append_optional_number(out: &mut [u8], at: usize, n: Option<u64>) -> usize
    ensures { Fits (enc_opt_number (λ x. x) n) at out.old out.new result }
{
    match n {
        None => append_byte(out, at, 0),
        Some(x) => {
            let e = append_byte(&mut *out, at, 1);
            append_number(out, e, x)
        }
    }
}
