// Ids, byte runs and buffer lengths.
ghost use Rattle.std.specs.Prelude.{◌≡◌, IfSome, ◌≤◌, ◌-◌, length, take, drop};
ghost use Rattle.book.specs.Model.{id_list};
ghost use Rattle.tool_script.specs.Onward.{Onward};

use crate::Read;
use crate::kind::read_byte;
use book::Ids;
use codec_bytes::read::has;
use codec_cursor::read_number;

// 65 cells and a count, since a call refuses more than 64 ids; no clause on the count, unlike `part_ids::items`, as any is taken.
// The ids that were read.
pub fn as_slice(ids: &Ids<65>) -> &[u64]
    ensures { result.now ≡ id_list ids.now }
{
    &ids.items[..ids.count.min(65)]
}

// The first n numbers from `at` on, at most 65: a call refuses more than 64 ids whatever they are.
fn ids_at(s: &[u8], at: usize, n: usize) -> Ids<65>
    ensures { result.count ≤ 65 }
{
    let count = n.min(65);
    let mut items = [0u64; 65];
    let mut end = at;
    for item in &mut items[..count] {
        *item = read_number(s, &mut end);
    }
    Ids { count, items }
}

pub fn read_ids(s: &[u8], at: usize) -> Option<Read<Ids<65>>>
    ensures { IfSome result (λ r. Onward s.now at r.at × (r.value.count ≤ 65)) }
{
    let high = read_byte(s, at)?;
    let low = read_byte(s, high.at)?;
    let n = usize::from(u16::from_be_bytes([high.value, low.value]));
    if has(s, low.at, n * 8) {
        Some(Read {
            value: ids_at(s, low.at, n),
            at: low.at + n * 8,
        })
    } else {
        None
    }
}

// The length of a byte run or of a buffer, at most 65,536: a longer one ends the run of the script, so it is not read.
pub fn read_length(s: &[u8], at: usize) -> Option<Read<usize>>
    ensures { IfSome result (λ r. Onward s.now at r.at × (r.value ≤ 65536)) }
{
    let a = read_byte(s, at)?;
    let b = read_byte(s, a.at)?;
    let c = read_byte(s, b.at)?;
    let d = read_byte(s, c.at)?;
    let value = u32::from_be_bytes([a.value, b.value, c.value, d.value]) as usize;
    (value <= 65536).then_some(Read { value, at: d.at })
}

// The bytes are a part of the script that ends where they were read to.
pub fn read_bytes<'a>(s: &'a [u8], at: usize) -> Option<Read<&'a [u8]>>
    ensures onward { IfSome result (λ r. Onward s.now at r.at) }
    ensures before { IfSome result (λ r. length r.value.now ≤ r.at) }
    ensures part { IfSome result (λ r. r.value.now ≡ take (length r.value.now) (drop (r.at - length r.value.now) s.now)) }
{
    let n = read_length(s, at)?;
    if has(s, n.at, n.value) {
        let end = n.at + n.value;
        Some(Read {
            value: &s[n.at..end],
            at: end,
        })
    } else {
        None
    }
}
