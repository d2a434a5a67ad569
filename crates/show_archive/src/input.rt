// Reading to the end of the input or of the room.
ghost use Rattle.std.specs.Prelude.{◌≤◌, IfOk, length};

use std::io;
use std::io::Read;

// Fills the room as far as the input goes, and says how far that is.
pub fn read_all<R: Read>(file: &mut R, room: &mut [u8]) -> io::Result<usize>
    ensures { IfOk result (λ count. count ≤ length room.new) }
{
    let mut count: usize = 0;
    // A `while`: each read says itself how many bytes came.
    while count < room.len() {
        let n = file.read(&mut room[count..])?;
        if n == 0 {
            break;
        }
        count += n;
    }
    Ok(count)
}
