// The door of every call.
#![tactic(auto)]

ghost use Rattle.part_door.specs.Door.{Opens};

use book::BookData;
use book::refusal::Refusal;
use book::sound::SoundBook;
use book_sound::is_sound;

// The book as a sound one, or refused 1.
pub fn door(b: BookData) -> Result<SoundBook, Refusal>
    ensures { Opens b result }
{
    if is_sound(&b) {
        return Ok(SoundBook { parts: b });
    }
    Err(Refusal::NoBook)
}
