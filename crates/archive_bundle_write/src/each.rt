// Parts of one kind, one behind the other. The caller names the function that appends one part, whose form is the ghost value.
ghost use Rattle.std.specs.Prelude.{List, ℕ};
ghost use Rattle.codec_forms.specs.Wire.{enc_many, enc_list};
ghost use Rattle.codec_append.specs.Fits.{Fits};

use codec_append::append_byte;

// The clause with `IsAlwaysCallable` is std's form for a function that is lent, here and in `append_list`.
pub fn append_each<T, F: Fn(&mut [u8], usize, &T) -> usize>(
    out: &mut [u8],
    at: usize,
    parts: &[T],
    append: F,
) -> usize
    ghost form: { T → List ℕ }
    requires callable { F.IsAlwaysCallable append }
    requires appends { (d : _) (e : _) (x : _) (r : _) (d' : _) → F.post append d e x r d' → Fits (form x.now) e d.now d'.now r }
    ensures { Fits (enc_many form parts.now) at out.old out.new result }
{
    let mut e = at;
    for x in parts {
        e = append(&mut *out, e, x);
    }
    e
}

// The same after their count in one byte.
pub fn append_list<T, F: Fn(&mut [u8], usize, &T) -> usize>(
    out: &mut [u8],
    at: usize,
    parts: &[T],
    append: F,
) -> usize
    ghost form: { T → List ℕ }
    requires callable { F.IsAlwaysCallable append }
    requires appends { (d : _) (e : _) (x : _) (r : _) (d' : _) → F.post append d e x r d' → Fits (form x.now) e d.now d'.now r }
    ensures { Fits (enc_list form parts.now) at out.old out.new result }
{
    let e = append_byte(&mut *out, at, (parts.len() % 256) as u8);
    append_each(out, e, parts, append)
}
