// Items of archive forms, read at a cursor that the caller lends. A cursor below FAR is the place where the next item starts; one
// from FAR on is a refusal, whose place is what it has above FAR: no slice is that long. From a refusal nothing is read and the
// value means nothing, so readers stand one behind the other without a test, and one test at the end tells.
#![tactic(auto)]

ghost use Rattle.std.specs.Prelude.{◌≡◌, ◌+◌, ◌≤◌, length, take, drop};
ghost use Rattle.codec_forms.specs.Wire.{run, number, opt_number, be_from, overlay};
ghost use Rattle.codec_cursor.specs.Cursor.{Reads, passed, refused_at};
ghost use Rattle.codec_cursor.specs.Items.{Counts, ReadsCell};

use codec_bytes::put;
use codec_bytes::read::has;

// A byte run of at most 73 bytes in its cell: the library has no heap.
// No `CoinString`, though of its shape: an item of a form is no coin yet, and this crate stands below SHA-256.
#[derive(Clone, Copy)]
pub struct Cell73 {
    pub len: u8,
    pub bytes: [u8; 73],
}

// Longer than any slice. A cursor is a number and no Result, with which every reader would test behind each of its items.
pub const FAR: usize = 9223372036854775808;

// The cursor of a refusal at `at`; a refusal stays as it is.
// Slice and cursor are two parameters of every reader and no struct: the cursor alone moves, and contracts name it on its own.
pub fn refused(at: usize) -> usize
    ensures { result ≡ refused_at at }
{
    if at < FAR {
        return at + FAR;
    }
    at
}

// The cursor behind an item that started at `start`: a refusal of it where it does not pass.
pub fn pass(ok: bool, start: usize, at: usize) -> usize
    ensures { result ≡ passed ok start at }
{
    if ok {
        return at;
    }
    if at < FAR {
        return refused(start);
    }
    at
}

// A count, a kind or a mark of at most `most`.
pub fn read_count(s: &[u8], at: &mut usize, most: u8) -> u8
    ensures { Counts most s.now at.old result at.new }
{
    let start = *at;
    let room = has(s, start, 1);
    if !room {
        *at = refused(start);
        return 0;
    }
    let n = s[start];
    if most < n {
        *at = refused(start);
        return 0;
    }
    *at = start + 1;
    n
}

// The number that the 8 bytes from `at` stand for.
fn number_at(s: &[u8], at: usize) -> u64
    requires { at + 8 ≤ length s.now }
    ensures { result ≡ be_from 0 (take 8 (drop at s.now)) }
{
    let mut bytes = [0; 8];
    bytes.copy_from_slice(&s[at..at + 8]);
    u64::from_be_bytes(bytes)
}

pub fn read_number(s: &[u8], at: &mut usize) -> u64
    ensures { Reads (number 8) s.now at.old result at.new }
{
    let start = *at;
    let room = has(s, start, 8);
    if !room {
        *at = refused(start);
        return 0;
    }
    *at = start + 8;
    number_at(s, start)
}

// A number behind a mark that tells whether it is there.
pub fn read_optional_number(s: &[u8], at: &mut usize) -> Option<u64>
    ensures { Reads (opt_number (λ n. n)) s.now at.old result at.new }
{
    let mark = read_count(s, &mut *at, 1);
    if mark == 0 {
        return None;
    }
    Some(read_number(s, at))
}

// Copies the n bytes from `at` to the start of dst.
fn copy_at(s: &[u8], at: usize, n: usize, dst: &mut [u8])
    requires n_in_bounds { at + n ≤ length s.now }
    requires n_in_bounds_2 { n ≤ length dst.old }
    ensures { dst.new ≡ overlay (take n (drop at s.now)) dst.old }
{
    let e = at + n;
    put::put(&s[at..e], dst);
}

pub fn read_hash(s: &[u8], at: &mut usize) -> [u8; 32]
    ensures { Reads (run 32) s.now at.old result at.new }
{
    let start = *at;
    let mut hash = [0u8; 32];
    let room = has(s, start, 32);
    if !room {
        *at = refused(start);
        return hash;
    }
    *at = start + 32;
    copy_at(s, start, 32, &mut hash);
    hash
}

// A length byte of at most 73, and as many bytes.
pub fn read_cell(s: &[u8], at: &mut usize) -> Cell73
    ensures { ReadsCell s.now at.old result.len result.bytes at.new }
{
    let len = read_count(s, &mut *at, 73);
    let start = *at;
    let n = len as usize;
    let mut bytes = [0u8; 73];
    let room = has(s, start, n);
    if !room {
        *at = refused(start);
        return Cell73 { len: 0, bytes };
    }
    *at = start + n;
    copy_at(s, start, n, &mut bytes);
    Cell73 { len, bytes }
}
