// Arguments of one byte, numbers, and optional numbers.
ghost use Rattle.std.specs.Prelude.{◌≡◌, cond, ltb, IfSome, Some, None};
ghost use Rattle.codec_cursor.specs.Cursor.{far};
ghost use Rattle.archive_form.specs.Parse.{parse_goal, parse_trigger};
ghost use Rattle.tool_script.specs.Onward.{Onward, Argument};

use crate::Read;
use book::{DeliveryTrigger, SubmissionDeliveryGoal};
use book_answers::SubmissionFeeSource;
use codec_cursor::{FAR, read_count};

pub fn read_byte(s: &[u8], at: usize) -> Option<Read<u8>>
    ensures { IfSome result (λ r. Onward s.now at r.at) }
{
    let mut end = at;
    let value = read_count(s, &mut end, 255);
    (end < FAR).then_some(Read { value, at: end })
}

pub fn read_number(s: &[u8], at: usize) -> Option<Read<u64>>
    ensures { IfSome result (λ r. Onward s.now at r.at) }
{
    let mut end = at;
    let value = codec_cursor::read_number(s, &mut end);
    (end < FAR).then_some(Read { value, at: end })
}

// An argument of one byte that was read as `made` up to the cursor `end`: no value where that is a refusal.
fn argument<T: Copy>(s: &[u8], at: usize, made: T, end: usize) -> Option<Read<Option<T>>>
    ensures { IfSome result (λ r. Onward s.now at r.at × (r.value ≡ cond (ltb end far) (Some made) None)) }
{
    let byte = read_byte(s, at)?;
    Some(byte.map(|_| (end < FAR).then_some(made)))
}

// Two instances of `argument`: told the reader, it would ask for the contract of the reader in its own.
pub fn read_trigger(s: &[u8], at: usize) -> Option<Read<Option<DeliveryTrigger>>>
    ensures { IfSome result (λ r. Argument parse_trigger s.now at r.value r.at) }
{
    let mut end = at;
    let trigger = archive_bundle_read::kind::read_trigger(s, &mut end);
    argument(s, at, trigger, end)
}

pub fn read_goal(s: &[u8], at: usize) -> Option<Read<Option<SubmissionDeliveryGoal>>>
    ensures { IfSome result (λ r. Argument parse_goal s.now at r.value r.at) }
{
    let mut end = at;
    let goal = archive_bundle_read::kind::read_goal(s, &mut end);
    argument(s, at, goal, end)
}

// This and `read_flag` are two instances of `Read::map`.
pub fn read_source(s: &[u8], at: usize) -> Option<Read<Option<SubmissionFeeSource>>>
    ensures { IfSome result (λ r. Onward s.now at r.at) }
{
    let byte = read_byte(s, at)?;
    Some(byte.map(SubmissionFeeSource::from_number))
}

// No `TryFrom`: type and trait are of other crates.
pub fn flag_of(n: u8) -> Option<bool> {
    match n {
        0 => Some(false),
        1 => Some(true),
        _ => None,
    }
}

pub fn read_flag(s: &[u8], at: usize) -> Option<Read<Option<bool>>>
    ensures { IfSome result (λ r. Onward s.now at r.at) }
{
    let byte = read_byte(s, at)?;
    Some(byte.map(flag_of))
}

// A mark, and what `of` makes of the number, which a mark of 0 leaves unused.
pub fn read_optional<T, F: Fn(u64) -> T>(
    s: &[u8],
    at: usize,
    of: F,
) -> Option<Read<Option<Option<T>>>>
    requires { F.IsAlwaysCallable of }
    ensures { IfSome result (λ r. Onward s.now at r.at) }
{
    let mark = read_byte(s, at)?;
    let number = read_number(s, mark.at)?;
    let value = match (mark.value, number.value) {
        (0, 0) => Some(None),
        (1, n) => Some(Some(of(n))),
        _ => None,
    };
    Some(Read {
        value,
        at: number.at,
    })
}
