// The script is read in parts: the room holds the bytes from the next call on. A call has at most 655,364 bytes (op 14), so a room
// with as many in hand, or with all that the input still had, holds it whole.
ghost use Rattle.std.specs.Prelude.{◌≤◌, length};

const LONGEST_CALL: usize = 655364;

// The bytes in hand: those of the room from `at` up to `end`.
#[derive(Clone, Copy)]
pub struct InHand {
    pub at: usize,
    pub end: usize,
}

pub fn window() -> [u8; 1048576] {
    [0; 1048576]
}

// Moves the bytes from `at` up to `end` to the front and answers how many they are.
fn move_to_front(room: &mut [u8], at: usize, end: usize) -> usize
    requires at_le_end { at ≤ end }
    requires end_in_bounds { end ≤ length room.old }
    ensures { result ≤ length room.new }
{
    room.copy_within(at..end, 0);
    end - at
}

// Reads on behind the first n bytes, and answers where the bytes in hand end.
fn read_behind(room: &mut [u8], n: usize) -> usize
    requires { n ≤ length room.old }
{
    n + io::read_full(0, &mut room[n..])
}

// Sees to it that the next call is in hand as a whole. A room that was not filled shows that the input has ended.
pub fn refill(room: &mut [u8], at: usize, end: usize) -> InHand {
    if end != room.len() || end < at || LONGEST_CALL <= end - at {
        return InHand { at, end };
    }
    let n = move_to_front(&mut *room, at, end);
    let e = read_behind(room, n);
    InHand { at: 0, end: e }
}
