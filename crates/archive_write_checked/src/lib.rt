// Writing an archive: refusals first, so that a refused call leaves the buffer as it was.
#![tactic(auto)]

ghost use Rattle.std.specs.Prelude.{◌≡◌, true};
ghost use Rattle.book.specs.Sound.{soundb};
ghost use Rattle.archive_form.specs.Encode.{encode_book};
ghost use Rattle.archive_write_checked.specs.Answer.{write_answer, left_in};

use archive_size::size_archive;
use archive_write::write_book;
use book::BookData;
use book::refusal::Refusal;
use book::sound::SoundBook;
use book_sound::is_sound;

// Writes the archive of a sound book at the start of out, if out is long enough.
pub fn write_sound(b: SoundBook, out: &mut [u8]) -> Result<usize, Refusal>
    ensures { (result ≡ write_answer true out.old (encode_book b.parts)) × (out.new ≡ left_in true out.old (encode_book b.parts)) }
{
    let n = size_archive(b.parts);
    if out.len() < n {
        return Err(Refusal::ShortBuffer);
    }
    let e = write_book(out, b.parts);
    Ok(e)
}

// Writes the archive of b at the start of out, if the book is sound, which `sound` says, and if out is long enough. No type says that the
// book is sound, so this doesn't go through `write_sound`.
pub fn write_if_sound(b: BookData, sound: bool, out: &mut [u8]) -> Result<usize, Refusal>
    ensures { (result ≡ write_answer sound out.old (encode_book b)) × (out.new ≡ left_in sound out.old (encode_book b)) }
{
    if sound {
        let n = size_archive(b);
        if n <= out.len() {
            return Ok(write_book(out, b));
        }
        return Err(Refusal::ShortBuffer);
    }
    Err(Refusal::NoBook)
}

// Writes the archive of a book: refused 1 where it is not sound and 12 where out is shorter than needed, and then out stays as it was.
pub fn write_archive(b: BookData, out: &mut [u8]) -> Result<usize, Refusal>
    ensures { (result ≡ write_answer (soundb b) out.old (encode_book b)) × (out.new ≡ left_in (soundb b) out.old (encode_book b)) }
{
    let sound = is_sound(&b);
    if !sound {
        return Err(Refusal::NoBook);
    }
    write_sound(SoundBook { parts: b }, out)
}
