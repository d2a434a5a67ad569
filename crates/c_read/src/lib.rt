// The book that lent bytes hold.
#![tactic(auto)]

ghost use Rattle.c_boundary.specs.Held.{HeldAnswer};
ghost use Rattle.c_read.specs.Part.{PartAnswer};

use archive_read::{ReadArchive, read_archive};
use codec_bytes::read::has;
use codec_cursor::{FAR, read_number};

// The archive's bytes within the lent ones; none where no book is held.
fn part_of(d: &[u8]) -> &[u8]
    ensures { PartAnswer d.now result.now }
{
    let mut at: usize = 0;
    let length = read_number(d, &mut at) as usize;
    if FAR <= at {
        return &[];
    }
    let room = has(d, at, length);
    if !room {
        return &[];
    }
    &d[at..at + length]
}

// The reader's own answer is handed on, from one place: a second one, or a struct of its own, would cost every call a copy of the book.
pub fn held(d: &[u8]) -> ReadArchive
    ensures { HeldAnswer d.now result }
{
    read_archive(part_of(d))
}
