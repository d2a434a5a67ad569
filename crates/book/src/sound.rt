// A book that has passed the test of soundness.
ghost use Rattle.std.specs.Prelude.{◌≡◌, true};
ghost use Rattle.book.specs.Sound.{soundb};

use crate::BookData;

#[derive(Clone, Copy)]
pub struct SoundBook {
    pub parts: BookData,
    pub ghost sound: { soundb parts ≡ true },
}
