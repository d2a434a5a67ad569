// Tests over the counted cells of a book.
ghost use Rattle.std.specs.Prelude.{◌≡◌, [], ◌∷◌, ◌++◌, map, ◌+◌, ◌≤◌, ◌<◌, ltb, take};
ghost use Rattle.base_lists.specs.Lists.{distinctb, tail_of, is_zero};
ghost use Rattle.std.specs.List.{list_all, flat_map};
ghost use Rattle.book.specs.Zero.{is_zero_submitted, is_zero_delivery};
ghost use Rattle.book.specs.Model.{id_list, id_cells};
ghost use Rattle.book.specs.Sound.{sound_submitted, sound_delivery, id_of, attempt_token, slot_tokens, tokens_of};

use crate::numbers::{first, zeros_from};
use crate::{is_sound_delivery, is_sound_submitted};
use base_lists::{all_below, distinct};
use book::zero::passes_from;
use book::{AttemptSlots, Ids, OptionalAttempt, PendingDelivery, SubmittedTx, Token};

// ---- submissions
// The cells from n on are zero.
// The tests of this file take an array and its count, as the book has them side by side; each is one chain or call over cells of one type.
#[tactic(auto, using(base_lists::specs::Laws::tail_of_lem))]
pub fn submitted_tail(a: &[SubmittedTx; 16], n: usize) -> bool
    ensures { result ≡ tail_of 16 is_zero_submitted n a.now }
{
    passes_from(a, n, SubmittedTx::is_zero)
}

// The first n cells are sound.
pub fn sound_submissions(a: &[SubmittedTx], n: usize) -> bool
    ensures { result ≡ list_all sound_submitted (take n a.now) }
{
    a.iter().take(n).all(is_sound_submitted)
}

// ---- the queue
#[tactic(auto, using(base_lists::specs::Laws::tail_of_lem))]
pub fn delivery_tail(a: &[PendingDelivery; 16], n: usize) -> bool
    ensures { result ≡ tail_of 16 is_zero_delivery n a.now }
{
    passes_from(a, n, PendingDelivery::is_zero)
}

pub fn sound_deliveries(a: &[PendingDelivery], n: usize) -> bool
    ensures { result ≡ list_all sound_delivery (take n a.now) }
{
    a.iter().take(n).all(is_sound_delivery)
}

// ---- ids
// The ids of the first n submissions.
pub fn submitted_ids(a: &[SubmittedTx; 16], n: usize) -> Ids<16>
    ensures { result ≡ id_cells 16 (map id_of (take n a.now)) }
{
    let count = n.min(16);
    let mut items = [0; 16];
    for i in 0..count {
        items[i] = a[i].entry.id.0;
    }
    Ids { count, items }
}

// The cells behind the ids are zero.
pub fn ids_tail<const N: usize>(x: &Ids<N>) -> bool
    ensures { result ≡ tail_of N is_zero x.now.count x.now.items }
{
    zeros_from(&x.items, x.count)
}

// The ids in use.
pub fn listed<const N: usize>(x: &Ids<N>) -> &[u64]
    ensures { result.now ≡ id_list x.now }
{
    first(&x.items, x.count)
}

// ---- tokens
// Up to 32 tokens, two for each submission: a count beside an array, since the library has no heap.
#[derive(Clone, Copy)]
pub struct Tokens {
    pub count: usize,
    pub items: [u64; 32],
}

// The token of an attempt at the end, where there is one.
fn push_attempt(t: &mut Tokens, a: &OptionalAttempt)
    requires { t.old.count < 32 }
    ensures { (t.new.count ≤ t.old.count + 1) × (take t.new.count t.new.items ≡ take t.old.count t.old.items ++ attempt_token a.now) }
{
    if a.present {
        t.items[t.count] = a.attempt.token.0;
        t.count += 1;
    }
}

// The tokens that a submission's slots hold.
fn push_attempts(t: &mut Tokens, s: &AttemptSlots)
    requires { t.old.count + 1 < 32 }
    ensures { (t.new.count ≤ t.old.count + 2) × (take t.new.count t.new.items ≡ take t.old.count t.old.items ++ slot_tokens s.now) }
{
    push_attempt(t, &s.active_attempt);
    push_attempt(t, &s.completed_attempt);
}

// The tokens that the slots of the first n submissions hold.
pub fn submitted_tokens(a: &[SubmittedTx; 16], n: usize) -> Tokens
    ensures { take result.count result.items ≡ flat_map tokens_of (take n a.now) }
{
    let mut out = Tokens {
        count: 0,
        items: [0; 32],
    };
    for i in 0..n.min(16) {
        push_attempts(&mut out, &a[i].slots);
    }
    out
}

pub fn distinct_tokens(t: &Tokens) -> bool
    ensures { result ≡ distinctb (take t.now.count t.now.items) }
{
    distinct(first(&t.items, t.count))
}

pub fn tokens_below(t: &Tokens, next: Token) -> bool
    ensures { result ≡ list_all (λ x. ltb x next.0) (take t.now.count t.now.items) }
{
    all_below(first(&t.items, t.count), next.0)
}
