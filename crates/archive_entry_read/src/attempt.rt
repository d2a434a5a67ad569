// The two attempt slots. `held` has the tokens read so far: they may not come again.
ghost use Rattle.std.specs.Prelude.{◌≡◌, ◌++◌};
ghost use Rattle.base_lists.specs.Lists.{elemb};
ghost use Rattle.codec_forms.specs.Wire.{checked, number};
ghost use Rattle.codec_cursor.specs.Cursor.{Reads};
ghost use Rattle.book.specs.Sound.{attempt_token};
ghost use Rattle.archive_form.specs.Parse.{fresh_token, parse_slot, parse_slots};

use archive_bundle_read::kind::read_goal;
use archive_bundle_read::part::read_optional_hash;
use book::{AttemptSlots, DeliveryAttempt, OptionalAttempt, Token};
use codec_cursor::{pass, read_count, read_hash, read_number};

// Whether the slot has the token.
fn slot_holds(a: OptionalAttempt, token: Token) -> bool
    ensures { result ≡ elemb token.0 (attempt_token a) }
{
    a.present & (a.attempt.token == token)
}

// A token that is below the next one, not held and not in the live slot.
// `next`, `held` and `live` are three parameters: a struct of them would be made anew for each of the two slots.
fn fresh_token(next: Token, held: &[u64], live: OptionalAttempt, token: Token) -> bool
    ensures { result ≡ fresh_token next.0 (held.now ++ attempt_token live) token.0 }
{
    let before = held.contains(&token.0);
    let twin = slot_holds(live, token);
    (token < next) & !(before | twin)
}

fn read_token(s: &[u8], at: &mut usize, next: Token, held: &[u64], live: OptionalAttempt) -> Token
    ensures { Reads (checked (fresh_token next.0 (held.now ++ attempt_token live)) (number 8)) s.now at.old result.0 at.new }
{
    let start = *at;
    let n = read_number(s, &mut *at);
    let token = Token(n);
    let fresh = fresh_token(next, held, live, token);
    *at = pass(fresh, start, *at);
    token
}

// An attempt: token, goal, drained fingerprint, finalised fingerprint.
// With a test of the mark of its own, as `read_optional_hash`: what stands behind is no `Option`.
fn read_slot(
    s: &[u8],
    at: &mut usize,
    next: Token,
    held: &[u64],
    live: OptionalAttempt,
) -> OptionalAttempt
    ensures { Reads (parse_slot next.0 (held.now ++ attempt_token live)) s.now at.old result at.new }
{
    let mark = read_count(s, &mut *at, 1);
    if mark == 0 {
        return OptionalAttempt::zero();
    }
    let token = read_token(s, &mut *at, next, held, live);
    let goal = read_goal(s, &mut *at);
    let drained_variant_fingerprint = read_hash(s, &mut *at);
    let finalized_variant_fingerprint = read_optional_hash(s, at);
    let attempt = DeliveryAttempt {
        token,
        goal,
        drained_variant_fingerprint,
        finalized_variant_fingerprint,
    };
    OptionalAttempt {
        present: true,
        attempt,
    }
}

pub fn read_slots(s: &[u8], at: &mut usize, next: Token, held: &[u64]) -> AttemptSlots
    ensures { Reads (parse_slots next.0 held.now) s.now at.old result at.new }
{
    let none = OptionalAttempt::zero();
    let active_attempt = read_slot(s, &mut *at, next, held, none);
    let completed_attempt = read_slot(s, at, next, held, active_attempt);
    AttemptSlots {
        active_attempt,
        completed_attempt,
    }
}
