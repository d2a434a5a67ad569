// `write_archive`: the archive of a book into a lent buffer.
#![tactic(auto)]

ghost use Rattle.std.specs.Prelude.{◌≡◌, length};
ghost use Rattle.book.specs.Model.{view};
ghost use Rattle.archive_form.specs.Encode.{encode_model};
ghost use Rattle.rules.specs.Steps.{run_book};
ghost use Rattle.rules.specs.Calls.WriteArchive.{write_archive};
ghost use Rattle.part_replies.specs.Reply.{written_reply, buffer_left};

use archive_write_checked::write_sound;
use book::BookData;
use book::sound::SoundBook;
use part_replies::Reply;

pub fn write_archive_sound(b: SoundBook, out: &mut [u8]) -> Reply<usize, BookData>
    ensures { (result ≡ written_reply b.parts (run_book (write_archive encode_model (length out.old)) (view b.parts))) × (out.new ≡ buffer_left out.old (run_book (write_archive encode_model (length out.old)) (view b.parts))) }
{
    Reply {
        answer: write_sound(b, out),
        book: b.parts,
    }
}
