// A list after its count.
ghost use Rattle.std.specs.Prelude.{◌≡◌, List, ◌<◌, length, replicate};
ghost use Rattle.codec_forms.specs.Wire.{Parser};
ghost use Rattle.codec_cursor.specs.Cursor.{Reads};
ghost use Rattle.codec_cursor.specs.Cells.{ReadsCells};

use codec_cursor::read_count;

// Reads the items of a list into lent cells and returns how many there are, at most as many as cells. The caller names the function
// that reads one item with those before it in hand; the ghost value is an unused cell and the parser of an item.
// The clause with `IsAlwaysCallable` is std's form for a function that is lent, and `reads` says what it does.
pub fn read_list<T: Copy, F: Fn(&[u8], &mut usize, &[T]) -> T>(
    s: &[u8],
    at: &mut usize,
    items: &mut [T],
    read: F,
) -> u8
    ghost of: { T × (List T → Parser T) }
    requires few { length items.old < 256 }
    requires unused { items.old ≡ replicate (length items.old) of.0 }
    requires callable { F.IsAlwaysCallable read }
    requires reads { (b : _) (a : _) (x : _) (r : _) (a' : _) → F.post read b a x r a' → Reads (of.1 x.now) b.now a.now r a'.now }
    ensures { ReadsCells (length items.old) of.0 of.1 s.now at.old result items.new at.new }
{
    let count = read_count(s, &mut *at, items.len() as u8);
    // An index loop: a turn lends the items of the turns before it.
    for i in 0..count as usize {
        let x = read(s, &mut *at, &items[..i]);
        items[i] = x;
    }
    count
}
